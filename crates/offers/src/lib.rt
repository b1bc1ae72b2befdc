// The better of two offers: two records for one profile text, each at the front of a buffer of its own.
// Its arrays have the greatest size that can be needed: the panel has no heap.
#![tactic(auto)]

ghost use Rattle.std.specs.Prelude.{◌≡◌, ◌≤◌, length};
ghost use Rattle.bands.specs.Bands.{same_bands};
ghost use Rattle.offers.specs.Offers.{candidate_offer, offer_of, beats, better, winner_for, winner, part_of, better_offer};
ghost use Rattle.offers.specs.Inner.{Profile, EndRead, SameCommon, header_is_for};

use bands::are_same;
use bits::BitPlace;
use profile::{TextNumbers, read_text};
use record::{after_terms, places, record_length};
use record_check::judge_record;
use record_read::{Header, read_into_room};

// The winning record's bytes, as part of the buffer that they came in. Where no record wins the part is empty, at the start of the first buffer.
pub fn better_offer<'a>(text: &[u8], first: &'a [u8], second: &'a [u8]) -> &'a [u8]
    ensures { part_of result ≡ better_offer text.now (part_of first.entry) (part_of second.entry) }
{
    match choose_offer(text, first, second) {
        Winner::Neither => &first[..0],
        Winner::First(size) => &first[..size],
        Winner::Second(size) => &second[..size],
    }
}

// Which buffer's record wins, and how many bytes it has: three cases, so no `Option` or `Result`.
#[derive(Clone, Copy, Debug, PartialEq, Eq)]
pub enum Winner {
    Neither,
    First(usize),
    Second(usize),
}

// Chooses between the records at the fronts of two buffers.
pub fn choose_offer(text: &[u8], first: &[u8], second: &[u8]) -> Winner
    ensures { result ≡ winner text.now first.now second.now }
{
    let mut setpoints = [0i16; 512];
    let mut bands = [0u16; 512];
    let Ok(numbers) = read_text(text, &mut setpoints, &mut bands) else {
        return Winner::Neither;
    };
    let slots = numbers.slots;
    choose_for(&setpoints[..slots], &bands[..slots], numbers, first, second)
}

// The same for the setpoints, bands and numbers of a text.
fn choose_for(
    setpoints: &[i16],
    bands: &[u16],
    numbers: TextNumbers,
    first: &[u8],
    second: &[u8],
) -> Winner
    requires { Profile setpoints.now bands.now numbers.band numbers.specials }
    ensures { result ≡ winner_for setpoints.now numbers.rest numbers.band bands.now first.now second.now }
{
    choose(
        read_offer(setpoints, bands, numbers, first),
        read_offer(setpoints, bands, numbers, second),
    )
}

// A candidate: how many bytes its record has, how many terms, and its least margin.
#[derive(Clone, Copy, Debug, PartialEq, Eq)]
pub struct Candidate {
    pub size: usize,
    pub terms: usize,
    pub margin: u16,
}

// The offer of a buffer, whose record ends where its counts say: a candidate, if there is one.
fn read_offer(
    setpoints: &[i16],
    bands: &[u16],
    numbers: TextNumbers,
    buffer: &[u8],
) -> Option<Candidate>
    requires { Profile setpoints.now bands.now numbers.band numbers.specials }
    ensures { result ≡ offer_of setpoints.now numbers.rest numbers.band bands.now buffer.now }
{
    if buffer.len() < 7 {
        return None;
    }
    let end = record_end(buffer);
    if buffer.len() < end {
        return None;
    }
    judge_offer(setpoints, bands, numbers, &buffer[..end])
}

// Where the record at the front of a buffer ends, by its version and its counts; behind the buffer where that does not have the second count.
fn record_end(buffer: &[u8]) -> usize
    requires { 7 ≤ length buffer.now }
    ensures { EndRead buffer.now result }
{
    let version = BitPlace::start().read(BitPlace::VERSION, buffer);
    let terms = usize::from(places().count.read(BitPlace::COUNT, buffer));
    let least = record_length(version, terms, 0);
    if version != 2 {
        return least;
    }
    if buffer.len() < least {
        return least;
    }
    let specials = usize::from(after_terms(terms).read(BitPlace::SPECIAL_COUNT, buffer));
    record_length(version, terms, specials)
}

// The offer of a record's bytes: a candidate where they read without refusal, have the profile's length, bands and rest value, and are kept.
fn judge_offer(
    setpoints: &[i16],
    bands: &[u16],
    numbers: TextNumbers,
    bytes: &[u8],
) -> Option<Candidate>
    requires { Profile setpoints.now bands.now numbers.band numbers.specials }
    ensures { result ≡ candidate_offer setpoints.now numbers.rest numbers.band bands.now bytes.now }
{
    let mut nodes = [0u16; 1023];
    let mut values = [0i16; 1023];
    let mut own = [0u16; 512];
    let header = read_into_room(bytes, &mut nodes, &mut values, &mut own).ok()?;
    if !is_for(header, setpoints.len(), numbers.rest, numbers.band) {
        return None;
    }
    let slots = header.slots;
    if !have_same_bands(&own[..slots], header.specials, bands, numbers.specials) {
        return None;
    }
    let kept = judge_record(setpoints, header, &nodes, &values, &own).ok()?;
    Some(Candidate {
        size: bytes.len(),
        terms: header.count,
        margin: kept.margin,
    })
}

// Whether two profiles of equally many slots go by the same bands, where they have the same common one and so many special slots.
fn have_same_bands(bands: &[u16], specials: usize, others: &[u16], those: usize) -> bool
    requires { SameCommon bands.now specials others.now those }
    ensures { result ≡ same_bands bands.now others.now }
{
    specials == those && (specials == 0 || are_same(bands, others))
}

// Whether a record has a profile's length, band and rest value.
fn is_for(header: Header, slots: usize, rest: i32, band: i32) -> bool
    ensures { result ≡ header_is_for header slots rest band }
{
    header.slots == slots && header.band == band && header.rest == rest
}

// The better of two offers, and the first where neither is better.
fn choose(first: Option<Candidate>, second: Option<Candidate>) -> Winner
    ensures { result ≡ better first second }
{
    match (first, second) {
        (None, None) => Winner::Neither,
        (Some(candidate), None) => Winner::First(candidate.size),
        (None, Some(candidate)) => Winner::Second(candidate.size),
        (Some(candidate), Some(other)) if beats(other, candidate) => Winner::Second(other.size),
        (Some(candidate), Some(_)) => Winner::First(candidate.size),
    }
}

// Whether a candidate beats another: fewer terms, then the greater least margin. No order of candidates: equal ones can differ in their bytes.
fn beats(candidate: Candidate, other: Candidate) -> bool
    ensures { result ≡ beats candidate other }
{
    if candidate.terms == other.terms {
        return other.margin < candidate.margin;
    }
    candidate.terms < other.terms
}
