// The verdict on a synopsis: whether it keeps its bands for a profile, its greatest error and its least margin, or the lowest slot whose error exceeds its band.
// Terms come as two slices of equal length, nodes and values: document 01 has slices of structs in thin functions around such code.
// Its arrays have the greatest size that can be needed: the panel has no heap.
#![tactic(auto)]

ghost use Rattle.std.specs.Prelude.{◌≡◌};
ghost use Rattle.histogram.specs.Terms.{paired};
ghost use Rattle.verdict.specs.Verdict.{Judged};
ghost use Rattle.verdict.specs.Inner.{Judgeable, Comparable, Compared, InSlot, difference};

use histogram::restore::hand_down;
use histogram::terms::padded_length;

// Kept, with the greatest error and the least margin.
#[derive(Clone, Copy, Debug, PartialEq, Eq)]
pub struct Kept {
    pub error: u16,
    pub margin: u16,
}

// Not kept: the lowest slot whose error exceeds its band.
#[derive(Clone, Copy, Debug, PartialEq, Eq)]
pub struct Beyond {
    pub slot: u16,
}

pub type Verdict = Result<Kept, Beyond>;

// The verdict on a synopsis whose values are restored at all nodes first.
pub fn judge(setpoints: &[i16], bands: &[u16], rest: i16, nodes: &[u16], values: &[i16]) -> Verdict
    requires { Judgeable setpoints.now bands.now rest nodes.now values.now }
    ensures { Judged setpoints.now rest (paired nodes.now values.now) bands.now result }
{
    let mut restored = [0i16; 1024];
    let padded = padded_length(setpoints.len());
    hand_down(2 * padded, rest, nodes, values, &mut restored);
    let end = padded + setpoints.len();
    compare(setpoints, &restored[padded..end], bands)
}

// Compares each slot's setpoint with what stands there, up to the first difference beyond the slot's band.
// What was found so far stands second in `max` and `min`: so the panel's core takes no instruction where it stays.
fn compare(setpoints: &[i16], restored: &[i16], bands: &[u16]) -> Verdict
    requires { Comparable setpoints.now restored.now bands.now }
    ensures { Compared setpoints.now restored.now bands.now result }
{
    let mut greatest: u32 = 0;
    // No band is above 400,00, and so no margin.
    let mut least: u32 = 40000;
    for slot in 0..setpoints.len() {
        let error = error_in(setpoints, restored, slot);
        let band = u32::from(bands[slot]);
        if band < error {
            return Err(Beyond { slot: slot as u16 });
        }
        greatest = error.max(greatest);
        least = (band - error).min(least);
    }
    Ok(Kept {
        error: greatest as u16,
        margin: least as u16,
    })
}

// The error in one slot. In 32 bits, for the loop above: in 16, by `abs_diff`, the panel's core takes more instructions a slot.
fn error_in(setpoints: &[i16], restored: &[i16], slot: usize) -> u32
    requires { InSlot setpoints.now restored.now slot }
    ensures { result ≡ difference setpoints.now restored.now slot }
{
    (i32::from(setpoints[slot]) - i32::from(restored[slot])).unsigned_abs()
}
