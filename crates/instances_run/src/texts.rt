// Profile texts.
use printing::{
    print, print_count_after, print_number_after, print_outcome, print_setpoint, print_special,
};
use profile::{TextNumbers, read_profile};
use refusals::Refusal;
use std::array::from_fn;
use std::io;
use std::io::Write;

// Document 01's firing: a rest value of 14,00, a band of 0,25 and four slots.
pub const FIRING: &[u8] = b"14,00\n0,25\n14,10\n13,90\n20,00\n19,50\n";

// What is printed of a text with a refusal.
const NO_NUMBERS: TextNumbers = TextNumbers {
    rest: 0,
    band: 0,
    slots: 0,
    specials: 0,
};

// Prints every text read.
pub fn run(out: &mut impl Write) -> io::Result<()> {
    document(out)?;
    limits(out)?;
    malformed(out)?;
    lines(out)?;
    short(out)
}

// Document 01's instances.
fn document(out: &mut impl Write) -> io::Result<()> {
    show(out, b"no bytes", b"")?;
    show(out, b"two good lines", b"14,00\n0,25\n")?;
    show(out, b"document 01's firing", FIRING)?;
    show(out, b"a setpoint at the limit", b"0\n0\n200,00\n")?;
    show(out, b"a setpoint beyond it", b"0\n0\n200,01\n")
}

// Rest values and bands beyond their limits.
fn limits(out: &mut impl Write) -> io::Result<()> {
    show(out, b"a rest value beyond it", b"999,01\n")?;
    show(out, b"a negative band", b"0\n-0,01\n0\n")?;
    show(out, b"a band beyond 400,00", b"0\n400,01\n0\n")
}

// A line that does not end, an empty one, and one that is no number.
fn malformed(out: &mut impl Write) -> io::Result<()> {
    show(out, b"the last line unended", b"0\n0\n999")?;
    show(out, b"an empty line", b"0\n\n0\n")?;
    show(out, b"a setpoint that is no number", b"0\n0\n0\n1.450\n")
}

// What it is, then the refusal's number, the rest value, the band, the numbers of slots and of special slots and the destinations' first two places.
pub fn show(out: &mut impl Write, what: &[u8], text: &[u8]) -> io::Result<()> {
    let mut setpoints = [7i16; 512];
    let mut specials = [7u16; 512];
    let mut own = [7u16; 512];
    let answer = read_profile(text, &mut setpoints, &mut specials, &mut own);
    print(out, what)?;
    print_answer(out, answer)?;
    print_setpoint(out, setpoints[0])?;
    print_setpoint(out, setpoints[1])?;
    print_special(out, specials[0], own[0])?;
    print_special(out, specials[1], own[1])?;
    print(out, b"\n")
}

// Prints the refusal's number and the numbers that were read.
fn print_answer(out: &mut impl Write, answer: Result<TextNumbers, Refusal>) -> io::Result<()> {
    print_outcome(out, &answer)?;
    let numbers = answer.unwrap_or(NO_NUMBERS);
    print_number_after(out, b" ", numbers.rest)?;
    print_number_after(out, b" ", numbers.band)?;
    print_count_after(out, b" ", numbers.slots)?;
    print_count_after(out, b" ", numbers.specials)
}

// A destination for one setpoint fewer than there are, and one for one special slot fewer.
fn short(out: &mut impl Write) -> io::Result<()> {
    into_one_place(out, b"two setpoints into one place", b"0\n0\n1\n2\n")?;
    into_one_place(out, b"one setpoint into it", b"0\n0\n1 2\n")
}

// What it is, then the refusal's number, the one place for a setpoint, and none for a special slot.
fn into_one_place(out: &mut impl Write, what: &[u8], text: &[u8]) -> io::Result<()> {
    let mut setpoints = [7i16; 1];
    let mut specials = [7u16; 1];
    let mut own = [7u16; 1];
    let answer = read_profile(text, &mut setpoints, &mut specials[..0], &mut own[..0]);
    print(out, what)?;
    print_outcome(out, &answer)?;
    print_setpoint(out, setpoints[0])?;
    print_special(out, specials[0], own[0])?;
    print(out, b"\n")
}

// Texts of lines of one digit: just enough, a line more and a byte more.
fn lines(out: &mut impl Write) -> io::Result<()> {
    show(out, b"512 slots", &digits::<1028>())?;
    show(out, b"513 slots", &digits::<1030>())?;
    show(out, b"512 slots and a byte", &digits::<1029>())
}

// The first N bytes of a text of lines of one digit.
fn digits<const N: usize>() -> [u8; N] {
    from_fn(|i| if i % 2 == 0 { b'0' } else { b'\n' })
}
