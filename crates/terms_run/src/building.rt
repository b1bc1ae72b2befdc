// Building for a slice of special slots into one of terms. In each refusal every later check would fail too, so the order shows. Every lent place holds 9 before a call.
ghost use Rattle.std.specs.Prelude.{◌≤◌};

use crate::lists::{every_slot, marked_places, one_special, two_specials};
use crate::{calls, print_built, print_terms};
use bands::SpecialSlot;
use printing::{print, print_call, print_unchanged};
use std::io;
use std::io::Write;

pub fn run(out: &mut impl Write) -> io::Result<()> {
    slots(out)?;
    values(out)?;
    bands(out)?;
    special_slots(out)?;
    own_bands(out)?;
    too_many(out)?;
    places(out)?;
    just_enough(out)?;
    several(out)?;
    tighter(out)?;
    one_number_changed(out)
}

fn slots(out: &mut impl Write) -> io::Result<()> {
    let setpoints = [20001i16; 513];
    let mut scratch = [9i16; 1];
    refuse(out, b"513 slots", &setpoints, 20001, -1, &mut scratch)?;
    refuse(out, b"no slots", &setpoints[..0], 20001, -1, &mut scratch)
}

fn values(out: &mut impl Write) -> io::Result<()> {
    let setpoints = [20001i16];
    let mut scratch = [9i16; 1];
    refuse(
        out,
        b"a rest value above",
        &setpoints,
        20001,
        -1,
        &mut scratch,
    )?;
    refuse(
        out,
        b"a rest value below",
        &setpoints,
        -20001,
        -1,
        &mut scratch,
    )?;
    refuse(
        out,
        b"a setpoint above",
        &setpoints,
        20000,
        -1,
        &mut scratch,
    )
}

fn bands(out: &mut impl Write) -> io::Result<()> {
    let setpoints = [20000i16];
    let mut scratch = [9i16; 1];
    refuse(out, b"a band below", &setpoints, 20000, -1, &mut scratch)?;
    refuse(out, b"a band above", &setpoints, 20000, 40001, &mut scratch)
}

// The slots of special slots: past the last, twice, and descending.
fn special_slots(out: &mut impl Write) -> io::Result<()> {
    special(
        out,
        b"a special slot past the last",
        two_specials(0, 9, 4, 9),
        2,
    )?;
    special(out, b"a special slot twice", two_specials(1, 9, 1, 9), 2)?;
    special(
        out,
        b"special slots that descend",
        two_specials(2, 9, 1, 9),
        2,
    )
}

// Their bands: above 40,000, and the common one.
fn own_bands(out: &mut impl Write) -> io::Result<()> {
    special(out, b"an own band above", one_special(3, 40001), 1)?;
    special(
        out,
        b"an own band that is the common one",
        one_special(3, 100),
        1,
    )
}

// More special slots than any list can have, of which the first 512 are right for no profile of 4 slots.
fn too_many(out: &mut impl Write) -> io::Result<()> {
    special(out, b"600 special slots", every_slot(), 600)
}

// A destination of a place too few, whatever the number of terms, and scratch of a number too few.
fn places(out: &mut impl Write) -> io::Result<()> {
    let alternating = [0i16, 100, 0, 100];
    let mut scratch = [9i16; 12288];
    build(
        out,
        b"for 2 terms into 3 places",
        &alternating,
        0,
        49,
        3,
        &mut scratch,
    )?;
    build(
        out,
        b"for no term into 3 places",
        &alternating,
        0,
        100,
        3,
        &mut scratch,
    )?;
    let mut short = [9i16; 12287];
    build(
        out,
        b"a scratch number too few",
        &alternating,
        0,
        49,
        4,
        &mut short,
    )
}

fn just_enough(out: &mut impl Write) -> io::Result<()> {
    let alternating = [0i16, 100, 0, 100];
    let mut scratch = [9i16; 12288];
    build(out, b"just enough", &alternating, 0, 49, 4, &mut scratch)
}

// Two slots take -15 and two any value of 5 to 15: several synopses of two terms keep the band as well, and the first comes out.
fn several(out: &mut impl Write) -> io::Result<()> {
    let rising = [-20i16, -10, 10, 10];
    let mut scratch = [9i16; 12288];
    build(
        out,
        b"the first of several",
        &rising,
        100,
        5,
        4,
        &mut scratch,
    )
}

// No term keeps the common band; slot 3 wants 90 to 110. Of one term, only one over all slots leaves a margin: 95, with 5 in slots 0, 2 and 3.
fn tighter(out: &mut impl Write) -> io::Result<()> {
    let alternating = [0i16, 100, 0, 100];
    let mut scratch = [9i16; 12288];
    build_for(
        out,
        b"with a tighter band for slot 3",
        &alternating,
        0,
        100,
        one_special(3, 10),
        1,
        4,
        &mut scratch,
    )
}

// The test of scratch sees one number that is another.
fn one_number_changed(out: &mut impl Write) -> io::Result<()> {
    let scratch = [9i16, 9, 8];
    print(out, b"one of three numbers changed: scratch")?;
    print_unchanged(out, &scratch, 9)?;
    print(out, b"\n")
}

// A profile of 4 slots for these special slots, with no place and too little scratch.
fn special(
    out: &mut impl Write,
    what: &[u8],
    specials: [SpecialSlot; 600],
    number: usize,
) -> io::Result<()>
    requires { number ≤ 600 }
{
    let alternating = [0i16, 100, 0, 100];
    let mut scratch = [9i16; 1];
    build_for(
        out,
        what,
        &alternating,
        0,
        100,
        specials,
        number,
        0,
        &mut scratch,
    )
}

// For a special slot that is wrong in every profile, with no place.
fn refuse(
    out: &mut impl Write,
    what: &[u8],
    setpoints: &[i16],
    rest: i32,
    band: i32,
    scratch: &mut [i16],
) -> io::Result<()> {
    build_for(
        out,
        what,
        setpoints,
        rest,
        band,
        one_special(512, 9),
        1,
        0,
        scratch,
    )
}

// For no special slot.
fn build(
    out: &mut impl Write,
    what: &[u8],
    setpoints: &[i16],
    rest: i32,
    band: i32,
    places: usize,
    scratch: &mut [i16],
) -> io::Result<()>
    requires { places ≤ 1100 }
{
    build_for(
        out,
        what,
        setpoints,
        rest,
        band,
        one_special(512, 9),
        0,
        places,
        scratch,
    )
}

// The refusal's number, the count, the greatest error, the destination's places and scratch.
fn build_for(
    out: &mut impl Write,
    what: &[u8],
    setpoints: &[i16],
    rest: i32,
    band: i32,
    specials: [SpecialSlot; 600],
    number: usize,
    places: usize,
    scratch: &mut [i16],
) -> io::Result<()>
    requires { (number ≤ 600) × (places ≤ 1100) }
{
    let built = calls::build(
        setpoints,
        rest,
        band,
        specials,
        number,
        marked_places(),
        places,
        scratch,
    );
    let answer = built.answer;
    let terms = built.terms;
    print_call(out, b"build ", what)?;
    print_built(out, answer)?;
    print_terms(out, terms)?;
    print_scratch(out, answer.is_err(), scratch)
}

// Ends a line with what a refusal left in scratch; after a success that is open.
fn print_scratch(out: &mut impl Write, refused: bool, scratch: &[i16]) -> io::Result<()> {
    if refused {
        print(out, b" scratch")?;
        print_unchanged(out, scratch, 9)?;
    }
    print(out, b"\n")
}
