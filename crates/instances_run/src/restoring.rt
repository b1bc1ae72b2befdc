// Setpoints restored from lists of terms.
ghost use Rattle.std.specs.Prelude.{◌≡◌, length};

use histogram::restore::{restore_profile, restore_slot};
use printing::{print, print_count_after, print_outcome, print_setpoint, print_setpoints};
use std::io;
use std::io::Write;

// Prints every slot and profile restored.
pub fn run(out: &mut impl Write) -> io::Result<()> {
    document(out)?;
    refused(out)?;
    refused_terms(out)?;
    nested(out)
}

// Document 01's firing: a rest value of 14,00 and one term at node 3.
fn document(out: &mut impl Write) -> io::Result<()> {
    for asked in 0..4 {
        slot(out, 4, 1400, &[3], &[1975], asked)?;
    }
    profile(out, 4, 1400, &[3], &[1975])
}

// In each refusal every later check would fail too, so the order shows.
fn refused(out: &mut impl Write) -> io::Result<()> {
    for (slots, rest) in [(0, 20001), (513, 0), (4, -20001), (4, 0), (1, 0)] {
        slot(out, slots, rest, &[3, 3], &[1, 2], 9)?;
    }
    Ok(())
}

// A slot past the last, a destination too short and a value beyond the limit.
fn refused_terms(out: &mut impl Write) -> io::Result<()> {
    slot(out, 4, 0, &[3], &[1], 4)?;
    profile(out, 512, 0, &[3], &[1])?;
    slot(out, 4, 0, &[3], &[20001], 0)
}

// A term of value 0 below another one, and a slot's own term.
fn nested(out: &mut impl Write) -> io::Result<()> {
    let nodes = [1u16, 2, 6];
    let values = [500i16, 0, -7];
    profile(out, 3, 9, &nodes, &values)?;
    profile(out, 4, 9, &nodes, &values)
}

// Asks for one slot, and prints its answer.
fn slot(
    out: &mut impl Write,
    slots: usize,
    rest: i32,
    nodes: &[u16],
    values: &[i16],
    asked: usize,
) -> io::Result<()>
    requires { length nodes.now ≡ length values.now }
{
    let answer = restore_slot(slots, rest, nodes, values, asked);
    print_count_after(out, b"slot ", asked)?;
    print_count_after(out, b" of ", slots)?;
    print_outcome(out, &answer)?;
    print_setpoint(out, answer.unwrap_or(0))?;
    print(out, b"\n")
}

// All slots into a destination of four.
fn profile(
    out: &mut impl Write,
    slots: usize,
    rest: i32,
    nodes: &[u16],
    values: &[i16],
) -> io::Result<()>
    requires { length nodes.now ≡ length values.now }
{
    let mut setpoints = [7i16; 4];
    let answer = restore_profile(slots, rest, nodes, values, &mut setpoints);
    print_count_after(out, b"all of ", slots)?;
    print_outcome(out, &answer)?;
    print_setpoints(out, &setpoints)?;
    print(out, b"\n")
}
