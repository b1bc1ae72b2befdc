// Tracing: the walk that reads the solved scratch from the root down and writes the terms of the first of the smallest synopses.
// A node hands on to its children the value that comes in where that is in the node's set, else the lowest value of the set, and then it has a term.
// Terms come as two slices of equal length, nodes and values: document 01 has slices of structs in thin functions around such code.
#![tactic(auto)]

ghost use Rattle.std.specs.Prelude.{◌≡◌, [], ◌≤◌};
ghost use Rattle.claims.specs.Inner.{with_term};
ghost use Rattle.trace.specs.Trace.{change, handed_on, set_at, Answered, TermFits, Handing, HandedToChildren, LevelFits, LevelsFit, Appended, LevelTraced, UpperTraced, LevelsTraced};

use subtree::{lower, plan};
use windows::{is_covered, load};

// Writes the terms of all levels, one level after the other, over the fronts of two slices; the answer is how many.
pub fn trace(
    scratch: &[i16],
    height: u32,
    value: u32,
    nodes: &mut [u16],
    values: &mut [i16],
) -> usize
    requires { LevelsFit scratch.now height value nodes.old values.old }
    ensures { LevelsTraced scratch.now height value nodes.old nodes.new values.old values.new result }
{
    let next = hand_on(scratch, value);
    let mut count = trace_top(scratch, height, value, next, nodes, values);
    for depth in 2..=height {
        count = trace_level(scratch, height, depth, 1, next, nodes, values, count);
    }
    count
}

// Writes the terms of the root and of its children over the fronts of two slices; the answer is how many.
fn trace_top(
    scratch: &[i16],
    height: u32,
    value: u32,
    next: u32,
    nodes: &mut [u16],
    values: &mut [i16],
) -> usize
    requires { LevelsFit scratch.now height value nodes.old values.old × (next ≡ handed_on (set_at scratch.now 0) value) }
    ensures { UpperTraced 2 scratch.now height value nodes.old nodes.new values.old values.new result }
{
    let count = write_term(1, value, next, nodes, values, 0);
    if 0 < height {
        trace_children(scratch, height, 1, next, nodes, values, count)
    } else {
        count
    }
}

// Writes the terms `depth` levels below a node that hands on `value`, behind the first `count`; the answer is how many there are then.
// Below a node whose number is 0 no node has a term, and their answers need not be in scratch. The recursion ends two levels above the terms, which saves most of its calls.
fn trace_level(
    scratch: &[i16],
    height: u32,
    depth: u32,
    node: u32,
    value: u32,
    nodes: &mut [u16],
    values: &mut [i16],
    count: usize,
) -> usize
    requires { (2 ≤ depth) × LevelFits scratch.now height depth node value nodes.old values.old count }
    ensures { LevelTraced scratch.now height depth node value nodes.old nodes.new values.old values.new count result }
{
    if load(scratch, 0) == 0 {
        return count;
    }
    let parts = plan(height);
    let own = parts.own as usize;
    let middle = parts.middle as usize;
    let end = parts.end as usize;
    let Handed { left, right } = hand_to_children(scratch, parts.own, parts.middle, value);
    let left_part = &scratch[own..middle];
    let right_part = &scratch[middle..end];
    if 2 < depth {
        let first = trace_level(
            left_part,
            height - 1,
            depth - 1,
            2 * node,
            left,
            nodes,
            values,
            count,
        );
        trace_level(
            right_part,
            height - 1,
            depth - 1,
            2 * node + 1,
            right,
            nodes,
            values,
            first,
        )
    } else {
        let first = trace_children(left_part, height - 1, 2 * node, left, nodes, values, count);
        trace_children(
            right_part,
            height - 1,
            2 * node + 1,
            right,
            nodes,
            values,
            first,
        )
    }
}

// Writes the terms of the children of a node that hands on `value`, behind the first `count`; the answer is how many there are then.
// Where the node's number is 0 they have none, and their answers need not be in scratch.
fn trace_children(
    scratch: &[i16],
    height: u32,
    node: u32,
    value: u32,
    nodes: &mut [u16],
    values: &mut [i16],
    count: usize,
) -> usize
    requires { LevelFits scratch.now height 1 node value nodes.old values.old count }
    ensures { LevelTraced scratch.now height 1 node value nodes.old nodes.new values.old values.new count result }
{
    let number = load(scratch, 0);
    if number == 0 {
        return count;
    }
    let parts = plan(height);
    let Handed { left, right } = hand_to_children(scratch, parts.own, parts.middle, value);
    let first = write_term(2 * node, value, left, nodes, values, count);
    write_term(2 * node + 1, value, right, nodes, values, first)
}

// Writes the term of a node, where it hands on another value than comes in, behind the first `count`; the answer is how many there are then.
fn write_term(
    node: u32,
    value: u32,
    next: u32,
    nodes: &mut [u16],
    values: &mut [i16],
    count: usize,
) -> usize
    requires { TermFits node value next nodes.old values.old count }
    ensures { Appended (with_term node (change value next) []) nodes.old nodes.new values.old values.new count result }
{
    if next == value {
        return count;
    }
    nodes[count] = node as u16;
    values[count] = lower(next);
    count + 1
}

// What two children hand on.
#[derive(Clone, Copy)]
struct Handed {
    left: u32,
    right: u32,
}

// The values that two children hand on where a value of the node's set comes in; their answers stand at `left` and `right`.
// Where the children's sets meet, the value is in both. Else the node's number is greater than the sum of theirs, and the value is in one of the sets.
fn hand_to_children(scratch: &[i16], left: u32, right: u32, value: u32) -> Handed
    requires { Handing scratch.now left right value }
    ensures { HandedToChildren scratch.now left right value result.left result.right }
{
    let numbers = load(scratch, left) + load(scratch, right);
    if load(scratch, 0) <= numbers {
        Handed {
            left: value,
            right: value,
        }
    } else if is_covered(scratch, left + 2, load(scratch, left + 1), value) {
        Handed {
            left: value,
            right: load(scratch, right + 2),
        }
    } else {
        Handed {
            left: load(scratch, left + 2),
            right: value,
        }
    }
}

// The value that a node hands on: the one that comes in where it is in the node's set, else the lowest of the set.
fn hand_on(scratch: &[i16], value: u32) -> u32
    requires { Answered scratch.now 0 }
    ensures { result ≡ handed_on (set_at scratch.now 0) value }
{
    if is_covered(scratch, 2, load(scratch, 1), value) {
        value
    } else {
        load(scratch, 2)
    }
}
