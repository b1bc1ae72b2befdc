// Document 02's F-6: texts with own bands, records of version 2, their check, and offers for a text with a special slot.
use crate::records::{RECORD, check, read, there_and_back_with, write_with};
use crate::texts::{FIRING, show};
use crate::winners::choose_for;
use std::array::from_fn;
use std::io;
use std::io::Write;

// Document 01's record with a band of 0,10 for slot 1, in 15 bytes, and one behind them.
const SPECIAL: [u8; 16] = [
    32, 24, 0, 200, 43, 192, 2, 1, 131, 219, 128, 32, 16, 0, 160, 126,
];

// Prints every text, record, check and choice.
pub fn run(out: &mut impl Write) -> io::Result<()> {
    lines(out)?;
    wrong_lines(out)?;
    writing(out)?;
    document(out)?;
    malformed(out)?;
    wrong_slots(out)?;
    wrong_bands(out)?;
    greatest_length(out)?;
    checks(out)?;
    choices(out)
}

// Own bands: the common one, which makes no special slot, as a value after reading, and others.
fn lines(out: &mut impl Write) -> io::Result<()> {
    show(out, b"an own band", b"0\n0,25\n14,10 0,1\n13,90\n")?;
    show(
        out,
        b"the common band as an own one",
        b"0\n0,25\n14,10 0,254\n13,90 0.25\n",
    )?;
    show(
        out,
        b"own bands at their limits",
        b"0\n0,25\n14,10 -0\n13,90 400\n",
    )
}

// In a line 1 goes before 2, and the setpoint's 2 before the band's 3.
fn wrong_lines(out: &mut impl Write) -> io::Result<()> {
    show(out, b"nothing after the space", b"0\n0\n1 \n")?;
    show(out, b"two spaces", b"0\n0\n1  1\n")?;
    show(out, b"an own band in the second line", b"0\n0 1\n1\n")?;
    show(out, b"a setpoint beyond it, and no band", b"0\n0\n300 x\n")?;
    show(out, b"both beyond theirs", b"0\n0\n300 500\n")?;
    show(out, b"an own band beyond it", b"0\n0\n1 400,01\n")
}

// In each refusal every later check would fail too, so the order shows.
fn writing(out: &mut impl Write) -> io::Result<()> {
    let nodes = [3, 8];
    let values = [1975, 0];
    let slots = [1, 4];
    let own = [10, 10];
    write_with(out, 4, 25, 1400, &[3], &[1975], &[1], &[10])?;
    write_with(out, 4, 25, 1400, &[3], &[1975], &slots, &own)?;
    write_with(out, 4, 25, 1400, &nodes, &values, &slots, &own)?;
    write_with(out, 5, 25, 1400, &nodes, &values, &slots, &own)
}

// The record above: its bytes, one behind them, and its special slot cut off.
fn document(out: &mut impl Write) -> io::Result<()> {
    read(out, b"a record of version 2", &SPECIAL[..15])?;
    read(out, b"it with a byte behind it", &SPECIAL)?;
    read(out, b"it without its special slot", &SPECIAL[..12])
}

// Bytes that are no record: another version, and a second count of 0, or none.
fn malformed(out: &mut impl Write) -> io::Result<()> {
    let three = [
        48u8, 24, 0, 200, 43, 192, 2, 1, 131, 219, 128, 32, 16, 0, 160,
    ];
    read(out, b"version 3", &three)?;
    let none = [32u8, 24, 0, 200, 43, 192, 2, 1, 131, 219, 128, 0];
    read(out, b"version 2 with no special slot", &none)?;
    read(out, b"it without its second count", &none[..11])
}

// Special slots: the last, one past it, one twice, and two for the one place.
fn wrong_slots(out: &mut impl Write) -> io::Result<()> {
    let last = [32u8, 24, 0, 200, 43, 192, 0, 0, 128, 192, 2, 128];
    read(out, b"the last slot as a special one", &last)?;
    let past = [32u8, 24, 0, 200, 43, 192, 0, 0, 129, 0, 2, 128];
    read(out, b"a special slot past the last", &past)?;
    let twice = [32u8, 24, 0, 200, 43, 192, 0, 1, 0, 64, 2, 128, 32, 1, 96];
    read(out, b"a special slot twice", &twice)?;
    let two = [32u8, 24, 0, 200, 43, 192, 0, 1, 0, 0, 2, 128, 64, 1, 96];
    read(out, b"two special slots into one place", &two)
}

// Own bands that no special slot may have.
fn wrong_bands(out: &mut impl Write) -> io::Result<()> {
    let common = [32u8, 24, 0, 200, 43, 192, 0, 0, 128, 64, 6, 64];
    read(out, b"the common band as an own one", &common)?;
    let above = [32u8, 24, 0, 200, 43, 192, 0, 0, 128, 103, 16, 64];
    read(out, b"an own band beyond the limit", &above)
}

// The largest record that reads.
fn greatest_length(out: &mut impl Write) -> io::Result<()> {
    let nodes: [u16; 1023] = from_fn(|i| i as u16 + 1);
    let slots: [u16; 512] = from_fn(|i| i as u16);
    let mut bytes = [255; 4933];
    there_and_back_with(out, &nodes, &[7; 1023], &slots, &[5; 512], &mut bytes)
}

// The check goes by the record's bands.
fn checks(out: &mut impl Write) -> io::Result<()> {
    let kept = [1410, 1390, 2000, 1950];
    check(out, b"slot 1 within its own band", &kept, &SPECIAL[..15])?;
    let beyond = [1410, 1389, 2000, 1950];
    check(out, b"slot 1 beyond its own band", &beyond, &SPECIAL[..15])
}

// A candidate has the text's special slots.
fn choices(out: &mut impl Write) -> io::Result<()> {
    choose_for(
        out,
        b"version 1 and version 2, for a text with that special slot",
        b"14,00\n0,25\n14,10\n13,90 0,10\n20,00\n19,50\n",
        &RECORD,
        &SPECIAL,
    )?;
    choose_for(
        out,
        b"version 2 and version 1, for a text without",
        FIRING,
        &SPECIAL,
        &RECORD,
    )?;
    choose_for(
        out,
        b"version 2 and version 1, for a text with another own band",
        b"14,00\n0,25\n14,10\n13,90 0,11\n20,00\n19,50\n",
        &SPECIAL,
        &RECORD,
    )
}
