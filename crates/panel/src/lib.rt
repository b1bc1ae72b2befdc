// The library's face for C: numbers and byte slices alone. Every call answers with one number of four 16-bit fields.
// `panel_c` has C call each function of it under its own name.
// Its arrays have the greatest size that can be needed: the panel has no heap.
#![tactic(auto)]

ghost use Rattle.std.specs.Prelude.{◌≡◌, nat_abs};
ghost use Rattle.panel.specs.Results.{packed_fields, slot_result, against_text_result, TextToRecord, LeastBandOfText, better_offer_result, flow_result, step_result};
ghost use Rattle.panel.specs.Inner.{packed, RecordBuilt};
ghost use Rattle.build.specs.Inner.{KnownProfile};

use air::{flow_of_step, step_for_flow};
use bits::complement_of;
use build::{build_first, least_band};
use offers::{Winner, choose_offer};
use profile::{TextNumbers, read_text};
use record_check::{check_record, read_slot};
use record_write::write_for_bands;
use refusals::Refusal;

// The three fields that a call answers with where it is not refused.
#[derive(Clone, Copy, Debug, PartialEq, Eq)]
struct Fields {
    pub first: u16,
    pub second: u16,
    pub third: u16,
}

impl Fields {
    // One number alone.
    fn alone(first: u16) -> Self
        ensures { (result.first ≡ first) × (result.second ≡ 0) × (result.third ≡ 0) }
    {
        Fields {
            first,
            second: 0,
            third: 0,
        }
    }
}

// A profile text to the record of its first best synopsis: bytes written, terms, greatest error.
pub fn panel_text_to_record(text: &[u8], destination: &mut [u8]) -> u64
    ensures { TextToRecord text.now destination.old destination.new result }
{
    pack(text_to_record(text, destination))
}

fn text_to_record(text: &[u8], destination: &mut [u8]) -> Result<Fields, Refusal>
    ensures { TextToRecord text.now destination.old destination.new (packed result) }
{
    let mut setpoints = [0i16; 512];
    let mut bands = [0u16; 512];
    let numbers = read_text(text, &mut setpoints, &mut bands)?;
    let slots = numbers.slots;
    build_record(&setpoints[..slots], &bands[..slots], numbers, destination)
}

// The record of the first best synopsis of a profile whose numbers were read.
fn build_record(
    setpoints: &[i16],
    bands: &[u16],
    numbers: TextNumbers,
    destination: &mut [u8],
) -> Result<Fields, Refusal>
    requires { KnownProfile setpoints.now bands.now numbers.rest numbers.band numbers.specials }
    ensures { RecordBuilt setpoints.now bands.now numbers.rest (nat_abs numbers.band) destination.old destination.new (packed result) }
{
    let mut nodes = [0u16; 512];
    let mut values = [0i16; 512];
    let mut scratch = [0i16; 12288];
    let built = build_first(
        setpoints,
        bands,
        numbers.band as u32,
        numbers.specials,
        numbers.rest,
        &mut nodes,
        &mut values,
        &mut scratch,
    );
    let count = built.count;
    let written = write_for_bands(
        setpoints.len(),
        numbers.band as u16,
        numbers.rest as i16,
        &nodes[..count],
        &values[..count],
        bands,
        numbers.specials,
        destination,
    )?;
    Ok(Fields {
        first: written as u16,
        second: count as u16,
        third: built.error,
    })
}

// One slot of a record: the setpoint in two's complement.
pub fn panel_record_slot(bytes: &[u8], slot: u64) -> u64
    ensures { result ≡ slot_result bytes.now slot }
{
    let answer = read_slot(bytes, slot as usize);
    pack(answer.map(|setpoint| Fields::alone(complement_of(16, setpoint))))
}

// A record against a text: whether the record's bands are kept, the greatest error, the lowest slot whose error exceeds its band.
pub fn panel_record_against_text(bytes: &[u8], text: &[u8]) -> u64
    ensures { result ≡ against_text_result bytes.now text.now }
{
    pack(record_against_text(bytes, text))
}

fn record_against_text(bytes: &[u8], text: &[u8]) -> Result<Fields, Refusal>
    ensures { packed result ≡ against_text_result bytes.now text.now }
{
    let mut setpoints = [0i16; 512];
    let mut bands = [0u16; 512];
    let profile = read_text(text, &mut setpoints, &mut bands)?;
    let slots = profile.slots;
    match check_record(&setpoints[..slots], bytes)? {
        Ok(kept) => Ok(Fields {
            first: 1,
            second: kept.error,
            third: 0,
        }),
        Err(beyond) => Ok(Fields {
            first: 0,
            second: 0,
            third: beyond.slot,
        }),
    }
}

// The least band of a text without special slots for a number of terms.
pub fn panel_least_band_of_text(text: &[u8], budget: u64) -> u64
    ensures { LeastBandOfText text.now budget result }
{
    pack(least_band_of_text(text, budget))
}

fn least_band_of_text(text: &[u8], budget: u64) -> Result<Fields, Refusal>
    ensures { LeastBandOfText text.now budget (packed result) }
{
    let mut setpoints = [0i16; 512];
    let mut bands = [0u16; 512];
    let read = read_text(text, &mut setpoints, &mut bands)?;
    if 0 < read.specials {
        return Err(Refusal::HasSpecials);
    }
    if 1023 < budget {
        return Err(Refusal::BudgetBeyond);
    }
    let slots = read.slots;
    let mut scratch = [0i16; 12288];
    let band = least_band(&setpoints[..slots], read.rest, budget as u32, &mut scratch)?;
    Ok(Fields::alone(band))
}

// The better of two offers for a text: which buffer's record wins, 0 for none, and how many bytes it has. Nothing is refused.
pub fn panel_better_offer(text: &[u8], first: &[u8], second: &[u8]) -> u64
    ensures { result ≡ better_offer_result text.now first.now second.now }
{
    match choose_offer(text, first, second) {
        Winner::Neither => pack_fields(0, 0, 0, 0),
        Winner::First(size) => pack_fields(0, 1, size as u16, 0),
        Winner::Second(size) => pack_fields(0, 2, size as u16, 0),
    }
}

// The flow of a step of the air duct, by the factory's table.
pub fn panel_flow_of_step(step: u64) -> u64
    ensures { result ≡ flow_result step }
{
    pack(flow_of_step(step).map(|flow| Fields::alone(flow)))
}

// The lowest step of the air duct whose flow reaches a given one.
pub fn panel_step_for_flow(flow: u64) -> u64
    ensures { result ≡ step_result flow }
{
    pack(step_for_flow(flow).map(|step| Fields::alone(step)))
}

// A call's answer in one number: 0 and its fields, or the refusal's number and fields of 0.
fn pack(answer: Result<Fields, Refusal>) -> u64
    ensures { result ≡ packed answer }
{
    match answer {
        Ok(fields) => pack_fields(0, fields.first, fields.second, fields.third),
        Err(refusal) => pack_fields(refusal.row(), 0, 0, 0),
    }
}

// Four fields in one number, lowest first; C takes the refusal as a number.
fn pack_fields(refusal: u8, first: u16, second: u16, third: u16) -> u64
    ensures { result ≡ packed_fields refusal first second third }
{
    u64::from(refusal)
        + 65536 * (u64::from(first) + 65536 * (u64::from(second) + 65536 * u64::from(third)))
}
