// The bottom-up pass of building: the answers of the nodes of a subtree, in a stretch of scratch.
// A node's answer rests on the answers of its two children; parts of setpoints, bands and scratch are handed to each half of the tree.
// Filler slots have no setpoint: a part of the setpoints may be short, or empty.
// Places, numbers and values have 32 bits, as in the crate windows; a part of a slice begins and ends at a usize.
#![tactic(auto)]

mod leaves;
mod node;

ghost use Rattle.std.specs.Prelude.{◌≡◌, ◌^◌, ◌≤◌, ◌<◌, nat_abs, length};
ghost use Rattle.claims.specs.Inner.{lifted, lowered, narrowed};
ghost use Rattle.windows.specs.Scratch.{at};
ghost use Rattle.subtree.specs.Answer.{slot_windows};
ghost use Rattle.subtree.specs.Stretch.{places, Solvable, Solved, Planned, Counted};

use leaves::{write_few, write_pair, write_pairs};
use node::combine;
use windows::{is_covered, load};

// The places of a stretch, by the height of its subtree and its number of slots.
fn places_of(height: u32, slots: u32) -> u32
    requires { (height ≤ 9) × (slots ≡ 2 ^ height) }
    ensures { (result ≡ places height) × (result ≤ 12286) }
{
    slots * (2 * height + 6) - 2
}

fn power_of_two(exponent: u32) -> u32
    requires { exponent ≤ 9 }
    ensures { (result ≡ 2 ^ exponent) × (result ≤ 512) }
{
    1u32 << exponent
}

// How a node's setpoints and stretch part between its children: the left child's setpoints end at `half`,
// the children's stretches lie from `own` to `middle` and from there to `end`.
#[derive(Clone, Copy)]
pub struct ChildPlaces {
    pub half: u32,
    pub own: u32,
    pub middle: u32,
    pub end: u32,
}

pub fn plan(height: u32) -> ChildPlaces
    requires { (0 < height) × (height ≤ 9) }
    ensures { Planned height result.half result.own result.middle result.end }
{
    let half = power_of_two(height - 1);
    let child = places_of(height - 1, half);
    let own = 4 * half + 2;
    let middle = own + child;
    ChildPlaces {
        half,
        own,
        middle,
        end: middle + child,
    }
}

// A value within ±20,000 as a number of 0 to 40,000.
pub fn lift(value: i32) -> u32
    requires { nat_abs value ≤ 20000 }
    ensures { (result ≡ lifted value) × (result ≤ 40000) }
{
    (value + 20000) as u32
}

// A number of 0 to 40,000 as the value that it was lifted from.
pub fn lower(number: u32) -> i16
    requires { number ≤ 40000 }
    ensures { result ≡ lowered number }
{
    (number as i32 - 20000) as i16
}

// Fills a stretch with the answers of a subtree over its setpoints, for their bands less a margin.
pub fn solve(setpoints: &[i16], bands: &[u16], margin: u32, scratch: &mut [i16], height: u32)
    requires { Solvable margin height setpoints.now bands.now scratch.old }
    ensures { Solved height (slot_windows (narrowed margin bands.now) setpoints.now) (at scratch.new) }
{
    let slots = setpoints.len() as u32;
    solve_part(setpoints, bands, slots, height, scratch, margin);
}

// The same over a part of the setpoints, whose number is `slots`. With one slot or none the recursion stops: no term is needed below.
// The number goes beside the parts in 32 bits and the margin last: on a Cortex-M0 a length has 64, and the fifth word and on go over the stack.
fn solve_part(
    setpoints: &[i16],
    bands: &[u16],
    slots: u32,
    height: u32,
    scratch: &mut [i16],
    margin: u32,
)
    requires { Solvable margin height setpoints.now bands.now scratch.old × (slots ≡ length setpoints.now) }
    ensures { Solved height (slot_windows (narrowed margin bands.now) setpoints.now) (at scratch.new) }
{
    if slots < 2 {
        write_few(setpoints, bands, slots, margin, scratch);
    } else if 1 < height {
        // Where the answers of the children stand: two pairs have the places that `write_pairs` gives them.
        let (left, right) = if 2 < height {
            let parts = plan(height);
            let own = parts.own as usize;
            let middle = parts.middle as usize;
            let end = parts.end as usize;
            let lefts = parts.half.min(slots);
            let cut = lefts as usize;
            let all = slots as usize;
            solve_part(
                &setpoints[..cut],
                &bands[..cut],
                lefts,
                height - 1,
                &mut scratch[own..middle],
                margin,
            );
            solve_part(
                &setpoints[cut..all],
                &bands[cut..all],
                slots - lefts,
                height - 1,
                &mut scratch[middle..end],
                margin,
            );
            (parts.own, parts.middle)
        } else {
            write_pairs(setpoints, bands, slots, margin, scratch);
            (10, 24)
        };
        combine(scratch, left, right);
    } else {
        write_pair(
            setpoints[0],
            setpoints[1],
            bands[0],
            bands[1],
            margin,
            scratch,
        );
    }
}

// How many terms the tree needs where a value comes in at the root; scratch then holds the answers of its nodes.
pub fn count_terms(
    setpoints: &[i16],
    bands: &[u16],
    margin: u32,
    value: u32,
    scratch: &mut [i16],
    height: u32,
) -> u32
    requires { Solvable margin height setpoints.now bands.now scratch.old }
    ensures { Counted height value (slot_windows (narrowed margin bands.now) setpoints.now) scratch.new result }
{
    solve(setpoints, bands, margin, scratch, height);
    let number = load(scratch, 0);
    let count = load(scratch, 1);
    if is_covered(scratch, 2, count, value) {
        number
    } else {
        number + 1
    }
}
