// What building and least band turn away, in the documents' order, and what lent memory holds after each call.
// In each refusal every later check would fail too, so the order shows. Every lent place holds 9 before a call.
#![tactic(auto)]

mod special_slots;

ghost use Rattle.std.specs.Prelude.{◌≡◌, ◌≤◌, length};

use build::{BuiltSynopsis, build_synopsis, least_band};
use printing::{
    print, print_call, print_count_after, print_number_after, print_outcome, print_term,
    print_unchanged,
};
use refusals::Refusal;
use std::io;
use std::io::Write;

// The scratch that both calls need.
pub const SCRATCH: usize = 12288;

fn main(rt: HostRuntime) -> io::Result<()> {
    let mut out = rt.stdout();
    lengths(&mut out)?;
    rest_values(&mut out)?;
    setpoints_beyond(&mut out)?;
    bands(&mut out)?;
    special_slots::run(&mut out)?;
    too_few_places(&mut out)?;
    just_enough(&mut out)?;
    least_band_profiles(&mut out)?;
    least_band_budgets(&mut out)
}

// Slots: none, and one too many, at first with all else right.
fn lengths(out: &mut impl Write) -> io::Result<()> {
    let setpoints = [7i16; 513];
    build(out, b"513 slots", &setpoints, 0, 0, 1024, SCRATCH)?;
    build(out, b"512 slots", &setpoints[..512], 0, 0, 1024, SCRATCH)?;
    refuse(out, b"513 slots, all else wrong", &setpoints, 20001, -1)?;
    refuse(out, b"no slots", &[], 20001, -1)
}

// Rest values beyond their limits.
fn rest_values(out: &mut impl Write) -> io::Result<()> {
    let limits = [-20000i16, 20000];
    refuse(out, b"a rest value above", &[0, 20001], 20001, -1)?;
    refuse(out, b"a rest value below", &limits, -20001, -1)?;
    refuse(out, b"the least rest value", &limits, i32::MIN, -1)
}

// Setpoints beyond their limits.
fn setpoints_beyond(out: &mut impl Write) -> io::Result<()> {
    refuse(out, b"a setpoint above", &[0, 20001], 20000, -1)?;
    refuse(out, b"a setpoint below", &[-20001, 0], -20000, 40001)?;
    refuse(out, b"the least setpoint", &[i16::MIN], 0, 40001)
}

// Bands beyond their limits, and all numbers at theirs.
fn bands(out: &mut impl Write) -> io::Result<()> {
    let limits = [-20000i16, 20000];
    refuse(out, b"a band below", &limits, 20000, -1)?;
    refuse(out, b"a band above", &limits, -20000, 40001)?;
    build(
        out,
        b"all at their limits",
        &limits,
        20000,
        40000,
        2,
        SCRATCH,
    )
}

// Room for as many terms as slots with their filler, whatever the number of terms, and scratch.
fn too_few_places(out: &mut impl Write) -> io::Result<()> {
    let three = [1i16, 2, 3];
    build(out, b"a place too few", &three, 0, 0, 3, SCRATCH)?;
    build(out, b"it for no term", &three, 2, 1, 3, SCRATCH)?;
    build(
        out,
        b"a scratch number too few",
        &three,
        0,
        0,
        4,
        SCRATCH - 1,
    )?;
    build(out, b"both too few", &three, 0, 0, 3, SCRATCH - 1)
}

// Just as much memory as it takes, and more.
fn just_enough(out: &mut impl Write) -> io::Result<()> {
    let four = [1i16, 2, 3, 4];
    build(out, b"both just enough", &four[..3], 0, 0, 4, SCRATCH)?;
    build(out, b"a term in every place", &four, 0, 0, 4, SCRATCH)?;
    build(out, b"both to spare", &four[..2], 0, 0, 1024, SCRATCH + 1)
}

// Slots, a rest value and a setpoint beyond their limits, with a budget beyond its own and no scratch.
fn least_band_profiles(out: &mut impl Write) -> io::Result<()> {
    find_band(out, b"513 slots", &[20001; 513], 20001, 1024, 0)?;
    find_band(out, b"no slots", &[], 20001, 1024, 0)?;
    find_band(out, b"a rest value above", &[1, 2, 3], 20001, 1024, 0)?;
    find_band(out, b"a setpoint above", &[20001], 20000, 1024, 0)
}

// Budgets beyond their limit, and too little scratch and just enough.
fn least_band_budgets(out: &mut impl Write) -> io::Result<()> {
    let three = [1i16, 2, 3];
    find_band(out, b"a budget above", &three, 0, 1024, 0)?;
    find_band(out, b"the greatest budget", &three, 0, u32::MAX, SCRATCH)?;
    find_band(
        out,
        b"a scratch number too few",
        &three,
        0,
        1023,
        SCRATCH - 1,
    )?;
    find_band(out, b"just enough", &three, 0, 1023, SCRATCH)
}

// What is lent; then the refusal's number, the count, the greatest error, the destination's first places and scratch.
pub fn build_for(
    out: &mut impl Write,
    what: &[u8],
    setpoints: &[i16],
    rest: i32,
    band: i32,
    specials: &[u16],
    own: &[u16],
    places: usize,
    numbers: usize,
) -> io::Result<()>
    requires { (length specials.now ≡ length own.now) × (places ≤ 1024) × (numbers ≤ 12289) }
{
    let mut nodes = [9u16; 1024];
    let mut values = [9i16; 1024];
    let mut scratch = [9i16; 12289];
    let answer = build_synopsis(
        setpoints,
        rest,
        band,
        specials,
        own,
        &mut nodes[..places],
        &mut values[..places],
        &mut scratch[..numbers],
    );
    print_call(out, b"build ", what)?;
    print_built(out, answer)?;
    print_terms(out, &nodes, &values, 5)?;
    print_scratch(out, answer.is_err(), &scratch)
}

// The same, with a special slot that is wrong for every number of slots, no place for a term and no scratch.
fn refuse(
    out: &mut impl Write,
    what: &[u8],
    setpoints: &[i16],
    rest: i32,
    band: i32,
) -> io::Result<()> {
    build_for(out, what, setpoints, rest, band, &[600], &[40001], 0, 0)
}

// The same, with no special slots.
fn build(
    out: &mut impl Write,
    what: &[u8],
    setpoints: &[i16],
    rest: i32,
    band: i32,
    places: usize,
    numbers: usize,
) -> io::Result<()>
    requires { (places ≤ 1024) × (numbers ≤ 12289) }
{
    build_for(out, what, setpoints, rest, band, &[], &[], places, numbers)
}

// What is lent; then the refusal's number, the least band and scratch.
fn find_band(
    out: &mut impl Write,
    what: &[u8],
    setpoints: &[i16],
    rest: i32,
    budget: u32,
    numbers: usize,
) -> io::Result<()>
    requires { numbers ≤ 12288 }
{
    let mut scratch = [9i16; 12288];
    let answer = least_band(setpoints, rest, budget, &mut scratch[..numbers]);
    print_call(out, b"least band ", what)?;
    print_found(out, answer)?;
    print_scratch(out, answer.is_err(), &scratch)
}

// Ends a line with what a refusal left in scratch; after a success that is open.
fn print_scratch(out: &mut impl Write, refused: bool, scratch: &[i16]) -> io::Result<()> {
    if refused {
        print(out, b" scratch")?;
        print_unchanged(out, scratch, 9)?;
    }
    print(out, b"\n")
}

// Prints the first `count` terms.
fn print_terms(
    out: &mut impl Write,
    nodes: &[u16],
    values: &[i16],
    count: usize,
) -> io::Result<()> {
    for (node, value) in nodes.iter().zip(values).take(count) {
        print_term(out, *node, *value)?;
    }
    Ok(())
}

// Prints the refusal's number, the count and the greatest error.
fn print_built(out: &mut impl Write, answer: Result<BuiltSynopsis, Refusal>) -> io::Result<()> {
    print_outcome(out, &answer)?;
    let built = answer.unwrap_or(BuiltSynopsis { count: 0, error: 0 });
    print_count_after(out, b" ", built.count)?;
    print_number_after(out, b" ", i32::from(built.error))
}

// Prints the refusal's number and the least band.
fn print_found(out: &mut impl Write, answer: Result<u16, Refusal>) -> io::Result<()> {
    print_outcome(out, &answer)?;
    print_number_after(out, b" ", i32::from(answer.unwrap_or(0)))
}
