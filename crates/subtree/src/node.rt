// The answer of a node from the answers of its two children: what is in both of their sets, or in either where they do not meet.
// Most sets are single windows, and two of these are combined with no loop.
ghost use Rattle.std.specs.Prelude.{◌≡◌, ◌+◌, ◌≤◌, ◌<◌, length};
ghost use Rattle.windows.specs.Scratch.{at, Joinable};
ghost use Rattle.subtree.specs.Stretch.{Combinable, CombinedAt, ListsCombined, Headed};
ghost use Rattle.subtree.specs.Pair.{SingleAt, DoubleWritten, SinglesCombined};

use windows::{Rest, load, store, write_join, write_meet};

// Combines the answers that stand at `left` and `right`.
pub fn combine(scratch: &mut [i16], left: u32, right: u32)
    requires { Combinable scratch.old left right }
    ensures { CombinedAt scratch.old scratch.new left right }
{
    let numbers = load(scratch, left) + load(scratch, right);
    let lefts = load(scratch, left + 1);
    let rights = load(scratch, right + 1);
    if lefts + rights == 2 {
        let left_ends = ends_at(scratch, left + 2);
        let right_ends = ends_at(scratch, right + 2);
        combine_singles(scratch, numbers, left_ends, right_ends);
    } else {
        let sets = Rest {
            left: left + 2,
            lefts,
            right: right + 2,
            rights,
        };
        combine_lists(scratch, numbers, sets);
    }
}

// Combines two lists of windows, where the children's numbers make up `numbers`.
fn combine_lists(scratch: &mut [i16], numbers: u32, sets: Rest)
    requires { Joinable scratch.old sets.left sets.lefts sets.right sets.rights × (numbers < 65535) }
    ensures { ListsCombined numbers sets.left sets.lefts sets.right sets.rights scratch.old scratch.new }
{
    let rest = write_join(scratch, sets);
    if rest.lefts == 0 {
        write_header(scratch, numbers + 1, sets.lefts + sets.rights);
    } else {
        let count = write_meet(scratch, rest);
        write_header(scratch, numbers, count);
    }
}

// Writes an answer's number, and how many windows it has.
fn write_header(scratch: &mut [i16], number: u32, count: u32)
    requires { (2 ≤ length scratch.old) × (number ≤ 65535) × (count ≤ 65535) }
    ensures { Headed number count scratch.old scratch.new }
{
    store(scratch, 0, number);
    store(scratch, 1, count);
}

// The ends of a window, both in it.
#[derive(Clone, Copy)]
pub struct Ends {
    pub low: u32,
    pub high: u32,
}

// The window at a place.
fn ends_at(scratch: &[i16], place: u32) -> Ends
    requires { (place + 1 < length scratch.now) × (place < 65536) }
    ensures { (result.low ≡ at scratch.now place) × (result.high ≡ at scratch.now (place + 1)) × (result.low ≤ 65535) × (result.high ≤ 65535) }
{
    Ends {
        low: load(scratch, place),
        high: load(scratch, place + 1),
    }
}

// Combines two windows, where the children's numbers make up `numbers`: what is in both, or both in order where they do not meet.
pub fn combine_singles(scratch: &mut [i16], numbers: u32, left: Ends, right: Ends)
    requires { (6 ≤ length scratch.old) × (numbers < 65535) × (left.low ≤ 65535) × (left.high ≤ 65535) × (right.low ≤ 65535) × (right.high ≤ 65535) }
    ensures { SinglesCombined numbers left.low left.high right.low right.high scratch.old scratch.new }
{
    let low = left.low.max(right.low);
    let high = left.high.min(right.high);
    if low <= high {
        write_single(scratch, 0, numbers, Ends { low, high });
    } else if right.low < left.low {
        write_double(scratch, numbers + 1, right, left);
    } else {
        write_double(scratch, numbers + 1, left, right);
    }
}

// Writes an answer of one window at a place.
pub fn write_single(scratch: &mut [i16], place: u32, number: u32, window: Ends)
    requires { (place + 4 ≤ length scratch.old) × (place < 65536) × (number ≤ 65535) × (window.low ≤ 65535) × (window.high ≤ 65535) }
    ensures { SingleAt place number window.low window.high scratch.old scratch.new }
{
    store(scratch, place, number);
    store(scratch, place + 1, 1);
    store(scratch, place + 2, window.low);
    store(scratch, place + 3, window.high);
}

// Writes an answer of two windows in front.
fn write_double(scratch: &mut [i16], number: u32, first: Ends, second: Ends)
    requires { (6 ≤ length scratch.old) × (number ≤ 65535) × (first.low ≤ 65535) × (first.high ≤ 65535) × (second.low ≤ 65535) × (second.high ≤ 65535) }
    ensures { DoubleWritten number first.low first.high second.low second.high scratch.old scratch.new }
{
    write_header(scratch, number, 2);
    store(scratch, 2, first.low);
    store(scratch, 3, first.high);
    store(scratch, 4, second.low);
    store(scratch, 5, second.high);
}
