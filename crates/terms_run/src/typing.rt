// Profile texts read into slices of setpoints and of special slots. In each refusal every later check would fail too, so the order shows.
ghost use Rattle.std.specs.Prelude.{◌≤◌};

use crate::calls::read_profile;
use crate::lists::marked_specials;
use crate::{end_with_specials, print_typed};
use printing::{print_call, print_setpoints};
use std::io;
use std::io::Write;

pub fn run(out: &mut impl Write) -> io::Result<()> {
    lines(out)?;
    bands(out)?;
    lengths(out)?;
    places(out)?;
    own_bands(out)
}

// A line without its number goes before the values of a later one.
fn lines(out: &mut impl Write) -> io::Result<()> {
    read(
        out,
        b"an own band of letters",
        b"0,00\n0,25\n1,00 x\n200,01\n",
        0,
    )?;
    read(
        out,
        b"a space and no own band",
        b"0,00\n0,25\n1,00 \n200,01\n",
        0,
    )?;
    read(out, b"two spaces", b"0,00\n0,25\n1,00  0,10\n200,01\n", 0)?;
    read(out, b"no byte 10 at the end", b"0,00\n0,25\n1,00 0,10", 0)
}

fn bands(out: &mut impl Write) -> io::Result<()> {
    read(
        out,
        b"a setpoint above with an own band above",
        b"0,00\n0,25\n200,01 400,01\n",
        0,
    )?;
    read(out, b"an own band above", b"0,00\n0,25\n200,00 400,01\n", 0)?;
    read(out, b"an own band below", b"0,00\n0,25\n200,00 -0,01\n", 0)
}

fn lengths(out: &mut impl Write) -> io::Result<()> {
    read(out, b"no bytes", b"", 0)?;
    read(out, b"two good lines", b"0,00\n0,25\n", 0)
}

// Three slots, two of them special, into a place too few for either, and into just enough.
fn places(out: &mut impl Write) -> io::Result<()> {
    let text = b"14,00\n0,25\n14,10 0,1\n13,90\n20,00 0\n";
    read(out, b"two special slots into one place", text, 1)?;
    read(out, b"two special slots into two places", text, 2)?;
    read(
        out,
        b"five slots into four places",
        b"0\n1\n1\n2\n3\n4\n5\n",
        2,
    )
}

// An own band that is the common one, however it is written, makes no special slot.
fn own_bands(out: &mut impl Write) -> io::Result<()> {
    read(
        out,
        b"own bands that are the common one",
        b"14,00\n0,25\n14,10 0,25\n13,90 0.25\n20,00 000,25\n",
        0,
    )
}

// The refusal's number, rest value, band, counts, and the destinations' places, of which those for setpoints held 7.
fn read(out: &mut impl Write, what: &[u8], text: &[u8], places: usize) -> io::Result<()>
    requires { places ≤ 600 }
{
    let mut setpoints = [7i16; 4];
    let typed = read_profile(text, &mut setpoints, marked_specials(), places);
    let specials = typed.specials;
    print_call(out, b"text ", what)?;
    print_typed(out, typed.answer)?;
    print_setpoints(out, &setpoints)?;
    end_with_specials(out, specials)
}
