// The library's calls on slices of terms and of special slots.
// Each lends room for the parts of such a slice, takes the list apart, or puts it together, around a call of a crate below that has its parts.
#![tactic(auto)]

mod pairs;

ghost use Rattle.std.specs.Prelude.{pos, length, take};
ghost use Rattle.refusals.specs.Answers.{refused_with, answered};
ghost use Rattle.histogram.specs.Restoring.{SlotRestored, ProfileRestored};
ghost use Rattle.record_write.specs.Writing.{RecordWritten};
ghost use Rattle.build.specs.Building.{count_of, Built};
ghost use Rattle.synopsis.specs.Answers.{TermsRead, TermsHanded, SetpointsRead};

use crate::pairs::{put_together, take_apart};
use bands::SpecialSlot;
use build::BuiltSynopsis;
use histogram::Term;
use profile::TextNumbers;
use record_read::Header;
use refusals::Refusal;

// Room for one term more than a valid list can have: the first of a longer list are no more valid than the whole of it.
const TERM_ROOM: usize = 1024;

// Room for one special slot more than a right list can have.
const SPECIAL_ROOM: usize = 513;

// The setpoint restored in one slot of a profile of `slots` slots.
pub fn restore_slot(slots: usize, rest: i32, terms: &[Term], slot: usize) -> Result<i16, Refusal>
    ensures { SlotRestored slots rest terms.now slot (refused_with result) (answered (pos 0) result) }
{
    let mut nodes = [0u16; TERM_ROOM];
    let mut values = [0i16; TERM_ROOM];
    let count = take_apart(terms, &mut nodes, &mut values);
    histogram::restore::restore_slot(slots, rest, &nodes[..count], &values[..count], slot)
}

// The setpoints restored in all slots of a profile of `slots` slots.
pub fn restore_profile(
    slots: usize,
    rest: i32,
    terms: &[Term],
    setpoints: &mut [i16],
) -> Result<(), Refusal>
    ensures { ProfileRestored slots rest terms.now (refused_with result) setpoints.old setpoints.new }
{
    let mut nodes = [0u16; TERM_ROOM];
    let mut values = [0i16; TERM_ROOM];
    let count = take_apart(terms, &mut nodes, &mut values);
    histogram::restore::restore_profile(slots, rest, &nodes[..count], &values[..count], setpoints)
}

// Writes the record of a header, terms and special slots over the front of `destination`.
pub fn write_record(
    slots: usize,
    band: i32,
    rest: i32,
    terms: &[Term],
    specials: &[SpecialSlot],
    destination: &mut [u8],
) -> Result<usize, Refusal>
    ensures { RecordWritten slots band rest terms.now specials.now result destination.old destination.new }
{
    let mut nodes = [0u16; TERM_ROOM];
    let mut values = [0i16; TERM_ROOM];
    let count = take_apart(terms, &mut nodes, &mut values);
    let mut special_slots = [0u16; SPECIAL_ROOM];
    let mut own = [0u16; SPECIAL_ROOM];
    let special_count = take_apart(specials, &mut special_slots, &mut own);
    record_write::write_record(
        slots,
        band,
        rest,
        &nodes[..count],
        &values[..count],
        &special_slots[..special_count],
        &own[..special_count],
        destination,
    )
}

// Reads a record; its terms are laid over the front of `terms`, its special slots over that of `specials`.
pub fn read_record(
    bytes: &[u8],
    terms: &mut [Term],
    specials: &mut [SpecialSlot],
) -> Result<Header, Refusal>
    ensures { TermsRead bytes.now result terms.old terms.new specials.old specials.new }
{
    let mut nodes = [0u16; TERM_ROOM];
    let mut values = [0i16; TERM_ROOM];
    let limit = terms.len().min(TERM_ROOM);
    let mut slots = [0u16; SPECIAL_ROOM];
    let mut own = [0u16; SPECIAL_ROOM];
    let special_limit = specials.len().min(SPECIAL_ROOM);
    let header = record_read::read_record(
        bytes,
        &mut nodes[..limit],
        &mut values[..limit],
        &mut slots[..special_limit],
        &mut own[..special_limit],
    )?;
    let count = header.count;
    put_together(&nodes[..count], &values[..count], terms);
    let special_count = header.specials;
    put_together(&slots[..special_count], &own[..special_count], specials);
    Ok(header)
}

// Builds the synopsis with the fewest terms that keeps the bands and, among those, the greatest least margin; of several such, the first.
pub fn build(
    setpoints: &[i16],
    rest: i32,
    band: i32,
    specials: &[SpecialSlot],
    terms: &mut [Term],
    scratch: &mut [i16],
) -> Result<BuiltSynopsis, Refusal>
    ensures { Built setpoints.now rest band specials.now (length terms.old) (length scratch.old) result (take (count_of result) terms.new)
        × TermsHanded result terms.old terms.new scratch.old scratch.new }
{
    let mut slots = [0u16; SPECIAL_ROOM];
    let mut own = [0u16; SPECIAL_ROOM];
    let special_count = take_apart(specials, &mut slots, &mut own);
    let mut nodes = [0u16; TERM_ROOM];
    let mut values = [0i16; TERM_ROOM];
    let places = terms.len().min(TERM_ROOM);
    let built = build::build_synopsis(
        setpoints,
        rest,
        band,
        &slots[..special_count],
        &own[..special_count],
        &mut nodes[..places],
        &mut values[..places],
        scratch,
    )?;
    let count = built.count;
    put_together(&nodes[..count], &values[..count], terms);
    Ok(built)
}

// Reads a profile text; its setpoints are laid over the front of `setpoints`, its special slots over that of `specials`.
pub fn read_profile(
    text: &[u8],
    setpoints: &mut [i16],
    specials: &mut [SpecialSlot],
) -> Result<TextNumbers, Refusal>
    ensures { SetpointsRead text.now result setpoints.old setpoints.new specials.old specials.new }
{
    let mut slots = [0u16; SPECIAL_ROOM];
    let mut own = [0u16; SPECIAL_ROOM];
    let limit = specials.len().min(SPECIAL_ROOM);
    let numbers = profile::read_profile(text, setpoints, &mut slots[..limit], &mut own[..limit])?;
    let count = numbers.specials;
    put_together(&slots[..count], &own[..count], specials);
    Ok(numbers)
}
