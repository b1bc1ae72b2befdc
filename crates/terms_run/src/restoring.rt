// Setpoints restored from slices of terms. In each refusal every later check would fail too, so the order shows.
ghost use Rattle.std.specs.Prelude.{◌≤◌};

use crate::calls::{restore_profile, restore_slot};
use crate::lists::{every_node, one_term, two_terms};
use histogram::Term;
use printing::{print, print_call, print_outcome, print_setpoint, print_setpoints};
use std::io;
use std::io::Write;

pub fn run(out: &mut impl Write) -> io::Result<()> {
    slots(out)?;
    terms(out)?;
    too_many(out)?;
    refused_profiles(out)?;
    too_many_for_a_profile(out)?;
    profiles(out)
}

fn slots(out: &mut impl Write) -> io::Result<()> {
    let twice = two_terms(3, 1, 3, 2);
    slot(out, b"of none", 0, 20001, twice, 2, 9)?;
    slot(out, b"of 513", 513, 20001, twice, 2, 999)?;
    slot(out, b"of 4, a rest value above", 4, 20001, twice, 2, 9)?;
    slot(out, b"of 4, a rest value below", 4, -20001, twice, 2, 9)
}

fn terms(out: &mut impl Write) -> io::Result<()> {
    slot(
        out,
        b"of 4, a node twice",
        4,
        0,
        two_terms(3, 1, 3, 2),
        2,
        9,
    )?;
    slot(out, b"of 4, a value above", 4, 0, one_term(3, 20001), 1, 9)?;
    slot(out, b"past the last of 4", 4, 0, one_term(3, 1), 1, 4)?;
    slot(out, b"that is the last of 4", 4, 0, one_term(3, 1), 1, 3)
}

fn too_many(out: &mut impl Write) -> io::Result<()> {
    let all = every_node();
    slot(out, b"of none, 1,100 terms", 0, 20001, all, 1100, 999)?;
    slot(
        out,
        b"of 512, 1,100 terms and a rest value above",
        512,
        20001,
        all,
        1100,
        999,
    )?;
    slot(out, b"of 512, 1,100 terms", 512, 0, all, 1100, 999)?;
    slot(out, b"of 512, 1,023 terms", 512, 0, all, 1023, 511)
}

fn refused_profiles(out: &mut impl Write) -> io::Result<()> {
    let twice = two_terms(3, 1, 3, 2);
    profile(out, b"no slots", 0, 20001, twice, 2)?;
    profile(out, b"a rest value above", 5, 20001, twice, 2)?;
    profile(out, b"a node twice", 5, 0, twice, 2)?;
    profile(out, b"5 slots into 4 places", 5, 0, one_term(3, 1), 1)
}

fn too_many_for_a_profile(out: &mut impl Write) -> io::Result<()> {
    let all = every_node();
    profile(out, b"1,100 terms", 512, 0, all, 1100)?;
    profile(out, b"1,023 terms into 4 places", 512, 0, all, 1023)
}

// A term of value 0 below another one, and no term.
fn profiles(out: &mut impl Write) -> io::Result<()> {
    profile(out, b"a term of value 0", 4, 9, two_terms(1, 500, 2, 0), 2)?;
    profile(out, b"no term", 3, 9, one_term(1, 500), 0)
}

// The refusal's number and the setpoint.
fn slot(
    out: &mut impl Write,
    what: &[u8],
    slots: usize,
    rest: i32,
    terms: [Term; 1100],
    count: usize,
    asked: usize,
) -> io::Result<()>
    requires { count ≤ 1100 }
{
    let answer = restore_slot(slots, rest, terms, count, asked);
    print_call(out, b"a slot ", what)?;
    print_outcome(out, &answer)?;
    print_setpoint(out, answer.unwrap_or(0))?;
    print(out, b"\n")
}

// The refusal's number and the destination, which held 7 in every place.
fn profile(
    out: &mut impl Write,
    what: &[u8],
    slots: usize,
    rest: i32,
    terms: [Term; 1100],
    count: usize,
) -> io::Result<()>
    requires { count ≤ 1100 }
{
    let mut setpoints = [7i16; 4];
    let answer = restore_profile(slots, rest, terms, count, &mut setpoints);
    print_call(out, b"all slots, ", what)?;
    print_outcome(out, &answer)?;
    print_setpoints(out, &setpoints)?;
    print(out, b"\n")
}
