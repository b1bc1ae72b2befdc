// Profile text: the rest value, the common band, then a line a slot: its setpoint, and its own band where it has one.
// Special slots come as two slices of equal length, slots and bands: document 01 has slices of structs in thin functions around such code.
// Its arrays have the greatest size that can be needed: the panel has no heap.
#![tactic(auto)]

mod line;

ghost use Rattle.std.specs.Prelude.{◌≡◌, ◌≤◌, length};
ghost use Rattle.profile.specs.Answers.{TextRead, ProfileRead};
ghost use Rattle.profile.specs.Inner.{SlotsRead};

use crate::line::{read_band, read_slot, read_value};
use refusals::Refusal;

// The bytes of the longest line with one number, `-200,004` and its byte 10.
pub const LONGEST_LINE: usize = 9;

// The bytes of the longest line with a setpoint and an own band, `-200,004 -000,004` and its byte 10. That band is 0.
pub const LONGEST_SLOT_LINE: usize = 18;

// The bytes of the longest text: the rest value, the common band and 512 slots, each in the longest line.
pub const LONGEST_TEXT: usize = LONGEST_LINE * 2 + LONGEST_SLOT_LINE * 512;

// The numbers of a text: its rest value, its common band, how many slots it has, and how many of these are special.
#[derive(Clone, Copy)]
pub struct TextNumbers {
    pub rest: i32,
    pub band: i32,
    pub slots: usize,
    pub specials: usize,
}

// Reads a profile text; its setpoints are laid over the front of `destination`, its special slots over that of `specials` and their bands over that of `own`.
pub fn read_profile(
    text: &[u8],
    destination: &mut [i16],
    specials: &mut [u16],
    own: &mut [u16],
) -> Result<TextNumbers, Refusal>
    requires { length specials.old ≡ length own.old }
    ensures { ProfileRead text.now result destination.old destination.new specials.old specials.new own.old own.new }
{
    let mut setpoints = [0i16; 512];
    let mut bands = [0u16; 512];
    let numbers = read_text(text, &mut setpoints, &mut bands)?;
    let slots = numbers.slots;
    if destination.len() < slots || specials.len() < numbers.specials {
        return Err(Refusal::OutputShort);
    }
    limits::lay(&setpoints[..slots], destination);
    bands::gather(numbers.band as u16, &bands[..slots], specials, own);
    Ok(numbers)
}

// Reads a profile text into room for 512 slots, for the calls that have no destination of the caller's: they never refuse with 6.
pub fn read_text(
    text: &[u8],
    setpoints: &mut [i16],
    bands: &mut [u16],
) -> Result<TextNumbers, Refusal>
    requires { (512 ≤ length setpoints.old) × (512 ≤ length bands.old) }
    ensures { TextRead text.now result setpoints.old setpoints.new bands.old bands.new }
{
    let rest = read_value(text, 0)?;
    let band = read_band(text, rest.next)?;
    if text.len() == band.next {
        return Err(Refusal::SlotsBeyond);
    }
    let slots = read_slots(text, band.next, band.number as u16, setpoints, bands)?;
    Ok(TextNumbers {
        rest: rest.number,
        band: band.number,
        slots: slots.count,
        specials: slots.specials,
    })
}

// How many slots were read, and how many of these are special.
#[derive(Drop)]
struct SlotCounts {
    pub count: usize,
    pub specials: usize,
}

// Reads the slots' lines from a place on. A band is stored in one of two branches: so a line without its own costs one store more, and no count.
// The loop goes by the place of the next line, which `read_slot` finds: there is no slice or range of lines for a `for`.
fn read_slots(
    text: &[u8],
    from: usize,
    common: u16,
    setpoints: &mut [i16],
    bands: &mut [u16],
) -> Result<SlotCounts, Refusal>
    requires { (from ≤ length text.now) × (common ≤ 40000) × (512 ≤ length setpoints.old) × (512 ≤ length bands.old) }
    ensures { SlotsRead common text.now from result setpoints.old setpoints.new bands.old bands.new }
{
    let mut at = from;
    let mut count = 0;
    let mut specials = 0;
    while at < text.len() {
        if count == 512 {
            return Err(Refusal::SlotsBeyond);
        }
        let line = read_slot(text, at, common)?;
        setpoints[count] = line.setpoint;
        if line.band == common {
            bands[count] = common;
        } else {
            bands[count] = line.band;
            specials += 1;
        }
        count += 1;
        at = line.next;
    }
    Ok(SlotCounts { count, specials })
}
