// Reading a record: its header, then its terms and the bands of its slots into room for all that a record can have.
// Terms and special slots come as pairs of slices of equal length: document 01 has slices of structs in thin functions around such code.
// Its arrays have the greatest size that can be needed: the panel has no heap.
#![tactic(auto)]

ghost use Rattle.std.specs.Prelude.{◌≡◌, ◌≤◌, length};
ghost use Rattle.record_read.specs.Reading.{RecordRead};
ghost use Rattle.record_read.specs.Inner.{Room, RoomRead, HeaderRead, frame_in, SecondOpen, FrameOpen, Framed, fill_after, FieldsRead, TermsFit, TermsLaid, BandsFit, BandsRead, specials_at, WalkFits, WalkRead};

use bands::{fill, gather, is_wrong};
use bits::BitPlace;
use histogram::terms::{is_valid, padded_length};
use record::{after_fields, after_terms, first_special, places, record_length};
use refusals::Refusal;

// A record's header. The band is the common one, `count` that of the terms and `specials` that of the special slots.
#[derive(Clone, Copy, Debug)]
pub struct Header {
    pub slots: usize,
    pub band: i32,
    pub rest: i32,
    pub count: usize,
    pub specials: usize,
}

// Reads a record; the nodes and the values of its terms are laid over the fronts of `nodes` and `values`, the slots and the bands of its special slots over those of `specials` and `own`.
pub fn read_record(
    bytes: &[u8],
    nodes: &mut [u16],
    values: &mut [i16],
    specials: &mut [u16],
    own: &mut [u16],
) -> Result<Header, Refusal>
    requires { (length nodes.old ≡ length values.old) × (length specials.old ≡ length own.old) }
    ensures { RecordRead bytes.now result nodes.old nodes.new values.old values.new specials.old specials.new own.old own.new }
{
    let mut room_of_nodes = [0u16; 1023];
    let mut room_of_values = [0i16; 1023];
    let mut room_of_bands = [0u16; 512];
    let header = read_into_room(
        bytes,
        &mut room_of_nodes,
        &mut room_of_values,
        &mut room_of_bands,
    )?;
    let count = header.count;
    if nodes.len() < count || specials.len() < header.specials {
        return Err(Refusal::OutputShort);
    }
    limits::lay(&room_of_nodes[..count], nodes);
    limits::lay(&room_of_values[..count], values);
    let slots = header.slots;
    gather(header.band as u16, &room_of_bands[..slots], specials, own);
    Ok(header)
}

// Reads a record into room for 1,023 terms and the bands of 512 slots, for the calls that have no destination of the caller's: they never refuse with 6.
pub fn read_into_room(
    bytes: &[u8],
    nodes: &mut [u16],
    values: &mut [i16],
    bands: &mut [u16],
) -> Result<Header, Refusal>
    requires { Room nodes.old values.old bands.old }
    ensures { RoomRead bytes.now result nodes.old nodes.new values.old values.new bands.old bands.new }
{
    let header = read_header(bytes)?;
    // The bands are read ahead of the terms: so the loops over the terms have more registers.
    let slots = header.slots;
    let count = header.count;
    let right = read_slot_bands(
        bytes,
        count,
        header.specials,
        header.band as u16,
        &mut bands[..slots],
    );
    read_terms(bytes, count, nodes, values);
    let end = 2 * padded_length(slots);
    if !is_valid(end, &nodes[..count], &values[..count]) {
        return Err(Refusal::TermsWrong);
    }
    if !right {
        return Err(Refusal::SpecialsWrong);
    }
    Ok(header)
}

// The header of a record, with the refusals 7, 2 and 3.
fn read_header(bytes: &[u8]) -> Result<Header, Refusal>
    ensures { HeaderRead bytes.now result }
{
    let frame = read_frame(bytes).ok_or(Refusal::NotARecord)?;
    read_fields(bytes, frame.count, frame.specials)
}

// A record's counts of terms and special slots.
#[derive(Clone, Copy)]
struct Frame {
    pub count: usize,
    pub specials: usize,
}

// The frame of a record that passes row 7.
fn read_frame(bytes: &[u8]) -> Option<Frame>
    ensures { result ≡ frame_in bytes.now }
{
    if bytes.len() < 7 {
        return None;
    }
    let version = BitPlace::start().read(BitPlace::VERSION, bytes);
    let count = usize::from(places().count.read(BitPlace::COUNT, bytes));
    match version {
        1 => close_frame(bytes, version, count, 0),
        2 => read_second_count(bytes, count),
        _ => None,
    }
}

// The frame of a version 2. One that is too short for its second count has the wrong byte count, whatever that count is.
fn read_second_count(bytes: &[u8], count: usize) -> Option<Frame>
    requires { SecondOpen bytes.now count }
    ensures { result ≡ frame_in bytes.now }
{
    if bytes.len() < record_length(2, count, 0) {
        return None;
    }
    let specials = usize::from(after_terms(count).read(BitPlace::SPECIAL_COUNT, bytes));
    close_frame(bytes, 2, count, specials)
}

// The frame of a record whose version and counts are known.
fn close_frame(bytes: &[u8], version: u16, count: usize, specials: usize) -> Option<Frame>
    requires { FrameOpen bytes.now version count specials }
    ensures { result ≡ frame_in bytes.now }
{
    if bytes.len() == record_length(version, count, specials)
        && read_fill(bytes, version, count, specials) == 0
    {
        Some(Frame { count, specials })
    } else {
        None
    }
}

// The bits after the last field, as a number.
fn read_fill(bytes: &[u8], version: u16, count: usize, specials: usize) -> u16
    requires { Framed bytes.now version count specials }
    ensures { result ≡ fill_after version count specials bytes.now }
{
    let place = after_fields(version, count, specials);
    place.read(8 * bytes.len() - place.at, bytes)
}

// The fields of a header whose frame is right, with the refusals 2 and 3.
fn read_fields(bytes: &[u8], count: usize, specials: usize) -> Result<Header, Refusal>
    requires { 7 ≤ length bytes.now }
    ensures { FieldsRead bytes.now count specials result }
{
    let places = places();
    let rest = i32::from(places.rest.read_signed(BitPlace::REST, bytes));
    if limits::is_beyond(limits::VALUE_LIMIT, rest) {
        return Err(Refusal::ValueBeyond);
    }
    let band = i32::from(places.band.read(BitPlace::BAND, bytes));
    if limits::is_outside_band(band) {
        return Err(Refusal::BandBeyond);
    }
    let slots = usize::from(places.length.read(BitPlace::LENGTH, bytes)) + 1;
    Ok(Header {
        slots,
        band,
        rest,
        count,
        specials,
    })
}

// Reads that many terms over the fronts of `nodes` and `values`.
fn read_terms(bytes: &[u8], count: usize, nodes: &mut [u16], values: &mut [i16])
    requires { TermsFit bytes.now count nodes.old values.old }
    ensures { TermsLaid bytes.now count nodes.old nodes.new values.old values.new }
{
    let mut place = places().terms;
    for i in 0..count {
        let value_place = place.after(BitPlace::NODE);
        nodes[i] = place.read(BitPlace::NODE, bytes);
        values[i] = value_place.read_signed(BitPlace::VALUE, bytes);
        place = value_place.after(BitPlace::VALUE);
    }
}

// Puts the band that each slot goes by in its place; the answer is whether the special slots are right.
fn read_slot_bands(
    bytes: &[u8],
    terms: usize,
    specials: usize,
    common: u16,
    bands: &mut [u16],
) -> bool
    requires { BandsFit bytes.now terms specials common bands.old }
    ensures { BandsRead bytes.now result bands.new }
{
    fill(common, bands);
    if BitPlace::start().read(BitPlace::VERSION, bytes) == 1 {
        return true;
    }
    if specials == 0 {
        return false;
    }
    read_specials(bytes, first_special(terms), specials, common, bands)
}

// Puts the bands of that many special slots in their slots' places; the answer is whether all of them are right.
fn read_specials(
    bytes: &[u8],
    first: BitPlace,
    specials: usize,
    common: u16,
    bands: &mut [u16],
) -> bool
    requires { WalkFits bytes.now first.at specials bands.old }
    ensures { WalkRead (specials_at specials first.at bytes.now) common result bands.old bands.new }
{
    let mut place = first;
    let mut least = 0;
    for _ in 0..specials {
        let band_place = place.after(BitPlace::SLOT);
        let slot = usize::from(place.read(BitPlace::SLOT, bytes));
        let band = band_place.read(BitPlace::OWN_BAND, bytes);
        if is_wrong(least, bands.len(), common, slot, band) {
            return false;
        }
        bands[slot] = band;
        place = band_place.after(BitPlace::OWN_BAND);
        least = slot + 1;
    }
    true
}
