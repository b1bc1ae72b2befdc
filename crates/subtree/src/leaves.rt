// The lowest answers of the bottom-up pass: of one slot or none, and of two slots and the node above them, written with no recursion and no loop.
ghost use Rattle.std.specs.Prelude.{◌≡◌, [], ◌∷◌, ◌+◌, ◌-◌, ◌≤◌, min, nat_abs, length, drop};
ghost use Rattle.claims.specs.Inner.{narrowed};
ghost use Rattle.windows.specs.Scratch.{at};
ghost use Rattle.subtree.specs.Answer.{slot_window, slot_windows};
ghost use Rattle.subtree.specs.Stretch.{Within, Over, Solvable, Solved, Halves, LeafSolved};
ghost use Rattle.subtree.specs.Pair.{SlotEnds, LeavesWritten, PairSolved};

use crate::lift;
use crate::node::{Ends, combine_singles, write_single};

// The values within a slot's band of its setpoint, with a margin to spare.
fn slot_ends(setpoint: i16, own: u16, margin: u32) -> Ends
    requires { (nat_abs setpoint ≤ 20000) × (margin ≤ own) }
    ensures { SlotEnds (own - margin) setpoint result.low result.high }
{
    let middle = lift(i32::from(setpoint));
    let band = u32::from(own) - margin;
    let low = low_end(middle, band);
    let high = high_end(middle, band);
    Ends { low, high }
}

fn low_end(middle: u32, band: u32) -> u32
    ensures { result ≡ middle - band }
{
    middle.saturating_sub(band)
}

fn high_end(middle: u32, band: u32) -> u32
    requires { (middle ≤ 40000) × (band ≤ 65535) }
    ensures { result ≡ min (middle + band) 40000 }
{
    (middle + band).min(40000)
}

// The answer of one slot: no term, and the values within its band of its setpoint.
fn write_leaf(setpoint: i16, own: u16, margin: u32, scratch: &mut [i16])
    requires { (nat_abs setpoint ≤ 20000) × (margin ≤ own) × (4 ≤ length scratch.old) }
    ensures { LeafSolved (slot_window (own - margin) setpoint ∷ []) scratch.new }
{
    write_single(scratch, 0, 0, slot_ends(setpoint, own, margin));
}

// The answer of filler: no term, and every value.
fn write_filler(scratch: &mut [i16])
    requires { 4 ≤ length scratch.old }
    ensures { LeafSolved [] scratch.new }
{
    let every_value = Ends {
        low: 0,
        high: 40000,
    };
    write_single(scratch, 0, 0, every_value);
}

// The answer of a subtree with one slot or none, whatever its height.
pub fn write_few(setpoints: &[i16], bands: &[u16], slots: u32, margin: u32, scratch: &mut [i16])
    requires { Within setpoints.now × (length bands.now ≡ length setpoints.now) × Over margin bands.now × (slots ≡ length setpoints.now) × (slots ≤ 1) × (4 ≤ length scratch.old) }
    ensures { LeafSolved (slot_windows (narrowed margin bands.now) setpoints.now) scratch.new }
{
    if slots == 0 {
        write_filler(scratch);
    } else {
        write_leaf(setpoints[0], bands[0], margin, scratch);
    }
}

// The answers of two leaves and of the node above them; `own` is the left slot's band, `other` the right slot's.
pub fn write_pair(left: i16, right: i16, own: u16, other: u16, margin: u32, scratch: &mut [i16])
    requires { (nat_abs left ≤ 20000) × (nat_abs right ≤ 20000) × (margin ≤ own) × (margin ≤ other) × (14 ≤ length scratch.old) }
    ensures { PairSolved (slot_window (own - margin) left) (slot_window (other - margin) right) scratch.new }
{
    let left_ends = slot_ends(left, own, margin);
    let right_ends = slot_ends(right, other, margin);
    write_leaves(scratch, left_ends, right_ends);
    combine_singles(scratch, 0, left_ends, right_ends);
}

// The answers of two leaves whose windows do not meet. Where they meet, no term is needed and nothing below the node is looked at.
fn write_leaves(scratch: &mut [i16], left: Ends, right: Ends)
    requires { (14 ≤ length scratch.old) × (left.low ≤ 65535) × (left.high ≤ 65535) × (right.low ≤ 65535) × (right.high ≤ 65535) }
    ensures { LeavesWritten left.low left.high right.low right.high scratch.new }
{
    if left.high.min(right.high) < left.low.max(right.low) {
        write_single(scratch, 6, 0, left);
        write_single(scratch, 10, 0, right);
    }
}

// The answers below a node of four leaves with two slots or more: a pair, and what there is of a second one.
// Most calls of the recursion would be for a single pair: this spares them.
pub fn write_pairs(setpoints: &[i16], bands: &[u16], slots: u32, margin: u32, scratch: &mut [i16])
    requires { Solvable margin 2 setpoints.now bands.now scratch.old × (slots ≡ length setpoints.now) × (2 ≤ slots) }
    ensures { Halves 1 10 24 (slot_windows (narrowed margin bands.now) setpoints.now) scratch.new }
{
    write_pair(
        setpoints[0],
        setpoints[1],
        bands[0],
        bands[1],
        margin,
        &mut scratch[10..24],
    );
    write_second(setpoints, bands, slots, margin, &mut scratch[24..38]);
}

// The answers of the second pair: of both of its slots, of one, or of none.
// The tests are in this order, and not a `match`, since most second pairs are whole: with a `match` a build takes up to 0.8 in a hundred more.
fn write_second(setpoints: &[i16], bands: &[u16], slots: u32, margin: u32, scratch: &mut [i16])
    requires { Within setpoints.now × (length bands.now ≡ length setpoints.now) × Over margin bands.now × (slots ≡ length setpoints.now) × (2 ≤ slots) × (slots ≤ 4) × (14 ≤ length scratch.old) }
    ensures { Solved 1 (drop 2 (slot_windows (narrowed margin bands.now) setpoints.now)) (at scratch.new) }
{
    if 3 < slots {
        write_pair(
            setpoints[2],
            setpoints[3],
            bands[2],
            bands[3],
            margin,
            scratch,
        );
    } else if 2 < slots {
        write_leaf(setpoints[2], bands[2], margin, scratch);
    } else {
        write_filler(scratch);
    }
}
