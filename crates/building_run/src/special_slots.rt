// Building with special slots: which of them it turns away, and what it builds by the bands of slots. The own bands stand behind the slots.
ghost use Rattle.std.specs.Prelude.{◌≡◌, length};

use crate::{SCRATCH, build_for};
use std::io;
use std::io::Write;

// Prints every call with special slots.
pub fn run(out: &mut impl Write) -> io::Result<()> {
    special_slots(out)?;
    own_bands(out)?;
    built_for_own_bands(out)
}

// Special slots: one that is none of the slots, one twice, and a descending list.
fn special_slots(out: &mut impl Write) -> io::Result<()> {
    refuse(out, b"a special slot past the last", 0, &[2], &[5])?;
    refuse(out, b"a special slot twice", 0, &[1, 1], &[5, 5])?;
    refuse(out, b"special slots descending", 0, &[1, 0], &[5, 5])?;
    refuse(out, b"it for a band above", 40001, &[1, 0], &[5, 5])
}

// Own bands: one beyond its limit, the common one, and both just within theirs.
fn own_bands(out: &mut impl Write) -> io::Result<()> {
    refuse(out, b"an own band above", 5, &[0, 1], &[0, 40001])?;
    refuse(
        out,
        b"the common band as an own one",
        40000,
        &[0, 1],
        &[0, 40000],
    )?;
    let limits = [0u16, 40000];
    build_for(
        out,
        b"own bands at their limits",
        &[1, 2],
        0,
        5,
        &[0, 1],
        &limits,
        2,
        SCRATCH,
    )?;
    build_for(
        out,
        b"it with a place too few",
        &[1, 2],
        0,
        5,
        &[0, 1],
        &limits,
        1,
        SCRATCH,
    )
}

// Document 02's F-6: the least margin stands in the error's place, and where it is equal the order decides; where all slots are special the common band has no part.
fn built_for_own_bands(out: &mut impl Write) -> io::Result<()> {
    build_two(out, b"slots with the bands 1 and 0", 0, &[0], &[1])?;
    build_two(out, b"them by the other special slot", 1, &[1], &[0])?;
    build_two(out, b"them as two special slots", 40000, &[0, 1], &[1, 0])?;
    build_two(out, b"them with the band 1", 1, &[], &[])
}

// The setpoints 1 and 2 over the rest value 0, with no place for a term and no scratch.
fn refuse(
    out: &mut impl Write,
    what: &[u8],
    band: i32,
    specials: &[u16],
    own: &[u16],
) -> io::Result<()>
    requires { length specials.now ≡ length own.now }
{
    build_for(out, what, &[1, 2], 0, band, specials, own, 0, 0)
}

// The setpoints 0 and 1 over the rest value 0, with a place for each slot.
fn build_two(
    out: &mut impl Write,
    what: &[u8],
    band: i32,
    specials: &[u16],
    own: &[u16],
) -> io::Result<()>
    requires { length specials.now ≡ length own.now }
{
    build_for(out, what, &[0, 1], 0, band, specials, own, 2, SCRATCH)
}
