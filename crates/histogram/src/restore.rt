// Restoring setpoints from a list of terms: one slot by the path up from its node, all slots by handing values down from the root.
// Terms come as two slices of equal length, nodes and values: document 01 has slices of structs in thin functions around such code.
// Its arrays have the greatest size that can be needed: the panel has no heap.
ghost use Rattle.std.specs.Prelude.{◌≡◌, pos, length};
ghost use Rattle.refusals.specs.Answers.{refused_with, answered};
ghost use Rattle.histogram.specs.Terms.{paired};
ghost use Rattle.histogram.specs.Restored.{restored_at};
ghost use Rattle.histogram.specs.Restoring.{synopsis_refusal, SlotRestored, ProfileRestored};
ghost use Rattle.histogram.specs.Inner.{Searchable, Handing, HandedDown, fed};

use crate::level::level;
use crate::terms::{find, is_valid, padded_length};
use refusals::Refusal;

// What refuses a synopsis of that many slots, its rest value and its terms.
#[tactic(auto, using(crate::proofs::Refusals::padded_inside))]
pub fn refuse_synopsis(
    slots: usize,
    rest: i32,
    nodes: &[u16],
    values: &[i16],
) -> Result<(), Refusal>
    requires { length nodes.now ≡ length values.now }
    ensures { refused_with result ≡ synopsis_refusal slots rest (paired nodes.now values.now) }
{
    if limits::is_outside_slots(slots) {
        return Err(Refusal::SlotsBeyond);
    }
    if limits::is_beyond(limits::VALUE_LIMIT, rest) {
        return Err(Refusal::ValueBeyond);
    }
    let end = 2 * padded_length(slots);
    if !is_valid(end, nodes, values) {
        return Err(Refusal::TermsWrong);
    }
    Ok(())
}

// The setpoint restored in one slot of a profile of `slots` slots.
pub fn restore_slot(
    slots: usize,
    rest: i32,
    nodes: &[u16],
    values: &[i16],
    slot: usize,
) -> Result<i16, Refusal>
    requires { length nodes.now ≡ length values.now }
    ensures { SlotRestored slots rest (paired nodes.now values.now) slot (refused_with result) (answered (pos 0) result) }
{
    refuse_synopsis(slots, rest, nodes, values)?;
    restore_checked_slot(slots, rest, nodes, values, slot)
}

// The same, of a synopsis that is not refused.
#[tactic(auto, using(crate::proofs::Refusals::padded_few))]
pub fn restore_checked_slot(
    slots: usize,
    rest: i32,
    nodes: &[u16],
    values: &[i16],
    slot: usize,
) -> Result<i16, Refusal>
    requires { (length nodes.now ≡ length values.now) × (synopsis_refusal slots rest (paired nodes.now values.now) ≡ 0) }
    ensures { SlotRestored slots rest (paired nodes.now values.now) slot (refused_with result) (answered (pos 0) result) }
{
    if slots <= slot {
        return Err(Refusal::NoSuchSlot);
    }
    let node = (padded_length(slots) + slot) as u16;
    Ok(restore_node(rest as i16, nodes, values, node))
}

// The value restored at a node: that of the first node with a term on the way up to the root, which has level + 1 nodes.
fn restore_node(rest: i16, nodes: &[u16], values: &[i16], node: u16) -> i16
    requires { Searchable nodes.now values.now node }
    ensures { result ≡ restored_at rest (paired nodes.now values.now) node }
{
    let mut above = node;
    for _ in 0..=level(node) {
        if let Some(place) = find(nodes, above) {
            return values[place];
        }
        above /= 2;
    }
    rest
}

// The setpoints restored in all slots of a profile of `slots` slots.
#[tactic(auto, using(crate::proofs::Refusals::padded_few))]
pub fn restore_profile(
    slots: usize,
    rest: i32,
    nodes: &[u16],
    values: &[i16],
    setpoints: &mut [i16],
) -> Result<(), Refusal>
    requires { length nodes.now ≡ length values.now }
    ensures { ProfileRestored slots rest (paired nodes.now values.now) (refused_with result) setpoints.old setpoints.new }
{
    refuse_synopsis(slots, rest, nodes, values)?;
    if setpoints.len() < slots {
        return Err(Refusal::OutputShort);
    }
    let mut restored = [0i16; 1024];
    let padded = padded_length(slots);
    hand_down(2 * padded, rest as i16, nodes, values, &mut restored);
    limits::lay(&restored[padded..padded + slots], setpoints);
    Ok(())
}

// Puts the value restored at each node below `end` at the node's place, and the rest value at place 0.
// One pass hands the values down: node i / 2 stands before node i, and the terms come in the nodes' order.
// The place of the next term is counted by hand, since it moves on at those nodes alone that have a term.
pub fn hand_down(end: usize, rest: i16, nodes: &[u16], values: &[i16], restored: &mut [i16])
    requires { Handing end nodes.now values.now restored.old }
    ensures { HandedDown rest (paired nodes.now values.now) end restored.old restored.new }
{
    restored[0] = rest;
    let mut next = 0;
    for node in 1..end {
        if let Some(value) = feed(nodes, values, next, node) {
            restored[node] = value;
            next += 1;
        } else {
            restored[node] = restored[node / 2];
        }
    }
}

// The value of the next term where it is the node's.
fn feed(nodes: &[u16], values: &[i16], next: usize, node: usize) -> Option<i16>
    requires { length nodes.now ≡ length values.now }
    ensures { result ≡ fed nodes.now values.now next node }
{
    if next < nodes.len() && usize::from(nodes[next]) == node {
        Some(values[next])
    } else {
        None
    }
}
