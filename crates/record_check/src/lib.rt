// One slot of a record, and the check of setpoints against a record.
// Terms come as two slices of equal length, nodes and values: document 01 has slices of structs in thin functions around such code.
// Its arrays have the greatest size that can be needed: the panel has no heap.
#![tactic(auto)]

ghost use Rattle.std.specs.Prelude.{◌≡◌, pos, length, take};
ghost use Rattle.refusals.specs.Answers.{refused_with, answered};
ghost use Rattle.verdict.specs.Verdict.{Judged};
ghost use Rattle.record_check.specs.Checking.{SlotRead, Checked};
ghost use Rattle.record_check.specs.Inner.{room_terms, RecordJudgeable};

use histogram::restore::restore_checked_slot;
use record_read::{Header, read_into_room};
use refusals::Refusal;
use verdict::{Verdict, judge};

// The setpoint restored in one slot of a record.
pub fn read_slot(bytes: &[u8], slot: usize) -> Result<i16, Refusal>
    ensures { SlotRead bytes.now slot (refused_with result) (answered (pos 0) result) }
{
    let mut nodes = [0u16; 1023];
    let mut values = [0i16; 1023];
    let mut bands = [0u16; 512];
    let read = read_into_room(bytes, &mut nodes, &mut values, &mut bands)?;
    let count = read.count;
    restore_checked_slot(
        read.slots,
        read.rest,
        &nodes[..count],
        &values[..count],
        slot,
    )
}

// Checks setpoints against a record: kept with the greatest error and the least margin, or not kept with the lowest slot beyond its band.
pub fn check_record(setpoints: &[i16], bytes: &[u8]) -> Result<Verdict, Refusal>
    ensures { Checked setpoints.now bytes.now result }
{
    if limits::is_outside_slots(setpoints.len()) {
        return Err(Refusal::SlotsBeyond);
    }
    let mut nodes = [0u16; 1023];
    let mut values = [0i16; 1023];
    let mut bands = [0u16; 512];
    let header = read_into_room(bytes, &mut nodes, &mut values, &mut bands)?;
    if limits::is_any_beyond(setpoints) {
        return Err(Refusal::ValueBeyond);
    }
    if header.slots != setpoints.len() {
        return Err(Refusal::LengthDiffers);
    }
    Ok(judge_record(setpoints, header, &nodes, &values, &bands))
}

// The verdict on a record that was read into room, whose terms and bands stand at the fronts of `nodes`, `values` and `bands`.
pub fn judge_record(
    setpoints: &[i16],
    header: Header,
    nodes: &[u16],
    values: &[i16],
    bands: &[u16],
) -> Verdict
    requires { RecordJudgeable setpoints.now header nodes.now values.now bands.now }
    ensures { Judged setpoints.now header.rest (room_terms header nodes.now values.now) (take (length setpoints.now) bands.now) result }
{
    let terms = header.count;
    let slots = setpoints.len();
    judge(
        setpoints,
        &bands[..slots],
        header.rest as i16,
        &nodes[..terms],
        &values[..terms],
    )
}
