// Writing a record: its header, its terms, its special slots and its fill.
// Terms come as two slices of equal length, their nodes and their values; so do special slots, their slots in `specials` and their bands in `own`.
// Document 01 has slices of structs in thin functions around such code.
// Its arrays have the greatest size that can be needed: the panel has no heap.
#![tactic(auto)]

ghost use Rattle.std.specs.Prelude.{◌≡◌, ◌<◌, length};
ghost use Rattle.bands.specs.Bands.{special_slots, specials_among};
ghost use Rattle.bits.specs.Bits.{bits_of, replaced_at};
ghost use Rattle.histogram.specs.Terms.{paired};
ghost use Rattle.record.specs.Layout.{layout_width, entries_bits};
ghost use Rattle.record.specs.Record.{header_layout, term_layout, special_layout, header_bits, terms_bits, version_for, specials_bits, terms_end, fields_end, record_bytes};
ghost use Rattle.record.specs.Answers.{packing_refusal};
ghost use Rattle.record_write.specs.Writing.{RecordWritten};
ghost use Rattle.refusals.specs.Answers.{refused_with};
ghost use Rattle.record_write.specs.Inner.{Writable, BandsWritten, RecordFits, HeaderFits, TermsFit, SpecialsFit, WalkFits, RoomFor, EntryPut, FillFits, filled};

use bands::{is_right, spread};
use bits::BitPlace;
use histogram::terms::{is_valid, padded_length};
use record::{after_fields, after_terms, first_special, places, record_length, version_for};
use refusals::Refusal;

// Writes the record of a header, terms and special slots over the front of `destination`; the answer is how many bytes that took.
pub fn write_record(
    slots: usize,
    band: i32,
    rest: i32,
    nodes: &[u16],
    values: &[i16],
    specials: &[u16],
    own: &[u16],
    destination: &mut [u8],
) -> Result<usize, Refusal>
    requires { (length nodes.now ≡ length values.now) × (length specials.now ≡ length own.now) }
    ensures { RecordWritten slots band rest (paired nodes.now values.now) (special_slots specials.now own.now) result destination.old destination.new }
{
    refuse(slots, band, rest, nodes, values, specials, own)?;
    let common = band as u16;
    let rest = rest as i16;
    if specials.is_empty() {
        // No slot has a band of its own, so no bands are laid out: `own`, which is empty, stands for them.
        return write_for_bands(slots, common, rest, nodes, values, own, 0, destination);
    }
    let mut bands = [0u16; 512];
    let bands = &mut bands[..slots];
    spread(common, specials, own, bands);
    write_for_bands(
        slots,
        common,
        rest,
        nodes,
        values,
        bands,
        specials.len(),
        destination,
    )
}

// Writes the record of a header, terms and the bands that the first slots go by; the others go by the common one. For calls that have tested these: 6 alone refuses.
pub fn write_for_bands(
    slots: usize,
    band: u16,
    rest: i16,
    nodes: &[u16],
    values: &[i16],
    bands: &[u16],
    specials: usize,
    destination: &mut [u8],
) -> Result<usize, Refusal>
    requires { Writable slots band nodes.now values.now bands.now specials }
    ensures { BandsWritten slots band rest (paired nodes.now values.now) (specials_among band bands.now) result destination.old destination.new }
{
    let count = record_length(version_for(specials), nodes.len(), specials);
    if destination.len() < count {
        return Err(Refusal::OutputShort);
    }
    put_record(
        slots,
        band,
        rest,
        nodes,
        values,
        bands,
        specials,
        &mut destination[..count],
    );
    Ok(count)
}

// Refuses a header, terms and special slots that no record can hold.
fn refuse(
    slots: usize,
    band: i32,
    rest: i32,
    nodes: &[u16],
    values: &[i16],
    specials: &[u16],
    own: &[u16],
) -> Result<(), Refusal>
    requires { (length nodes.now ≡ length values.now) × (length specials.now ≡ length own.now) }
    ensures { refused_with result ≡ packing_refusal slots band rest (paired nodes.now values.now) (special_slots specials.now own.now) }
{
    if limits::is_outside_slots(slots) {
        return Err(Refusal::SlotsBeyond);
    }
    if limits::is_beyond(limits::VALUE_LIMIT, rest) {
        return Err(Refusal::ValueBeyond);
    }
    if limits::is_outside_band(band) {
        return Err(Refusal::BandBeyond);
    }
    if !is_valid(2 * padded_length(slots), nodes, values) {
        return Err(Refusal::TermsWrong);
    }
    if !is_right(slots, band as u16, specials, own) {
        return Err(Refusal::SpecialsWrong);
    }
    Ok(())
}

// Writes the record of a header, terms and special slots over bytes that are just as long.
fn put_record(
    slots: usize,
    band: u16,
    rest: i16,
    nodes: &[u16],
    values: &[i16],
    bands: &[u16],
    specials: usize,
    bytes: &mut [u8],
)
    requires { RecordFits slots band nodes.now values.now bands.now specials bytes.old }
    ensures { bytes.new ≡ record_bytes slots band rest (paired nodes.now values.now) (specials_among band bands.now) }
{
    put_header(version_for(specials), slots, band, rest, nodes.len(), bytes);
    put_terms(nodes, values, bytes);
    put_specials(nodes.len(), band, bands, specials, bytes);
    put_fill(nodes.len(), specials, bytes);
}

// Writes the five fields of a header over the first bits.
fn put_header(version: u16, slots: usize, band: u16, rest: i16, count: usize, bytes: &mut [u8])
    requires { HeaderFits version slots count bytes.old }
    ensures { bits_of bytes.new ≡ replaced_at 0 (header_bits version slots band rest count) (bits_of bytes.old) }
{
    let places = places();
    BitPlace::start().write(BitPlace::VERSION, version, bytes);
    let length = (slots - 1) as u16;
    places.length.write(BitPlace::LENGTH, length, bytes);
    places.band.write(BitPlace::BAND, band, bytes);
    places.rest.write_signed(BitPlace::REST, rest, bytes);
    places.count.write(BitPlace::COUNT, count as u16, bytes);
}

// Writes terms behind a header, one after another. Values are read by the node's index: a `zip` of both slices hands pointers back, which firmware/audit refuses.
fn put_terms(nodes: &[u16], values: &[i16], bytes: &mut [u8])
    requires { TermsFit nodes.now values.now bytes.old }
    ensures { bits_of bytes.new ≡ replaced_at (layout_width header_layout) (terms_bits (paired nodes.now values.now)) (bits_of bytes.old) }
{
    let mut place = places().terms;
    for (i, &node) in nodes.iter().enumerate() {
        place = put_term(place, node, values[i], bytes);
    }
}

// Writes one term at a place; the answer is the place after it.
fn put_term(place: BitPlace, node: u16, value: i16, bytes: &mut [u8]) -> BitPlace
    requires { (node < 1024) × RoomFor term_layout place.at bytes.old }
    ensures { EntryPut term_layout (record { node = node; value = value }) place.at result.at bytes.old bytes.new }
{
    let value_place = place.after(BitPlace::NODE);
    place.write(BitPlace::NODE, node, bytes);
    value_place.write_signed(BitPlace::VALUE, value, bytes);
    value_place.after(BitPlace::VALUE)
}

// Writes the special slots among `bands` and their count behind that many terms, and nothing where there are none.
fn put_specials(terms: usize, common: u16, bands: &[u16], specials: usize, bytes: &mut [u8])
    requires { SpecialsFit terms common bands.now specials bytes.old }
    ensures { bits_of bytes.new ≡ replaced_at (terms_end terms) (specials_bits (specials_among common bands.now)) (bits_of bytes.old) }
{
    if specials == 0 {
        return;
    }
    after_terms(terms).write(BitPlace::SPECIAL_COUNT, specials as u16, bytes);
    put_own_bands(first_special(terms), common, bands, bytes);
}

// Writes the special slots among `bands` from a place on, one after another.
fn put_own_bands(first: BitPlace, common: u16, bands: &[u16], bytes: &mut [u8])
    requires { WalkFits first.at common bands.now bytes.old }
    ensures { bits_of bytes.new ≡ replaced_at first.at (entries_bits special_layout (specials_among common bands.now)) (bits_of bytes.old) }
{
    let mut place = first;
    for (slot, &band) in bands.iter().enumerate() {
        if band != common {
            place = put_special(place, slot as u16, band, bytes);
        }
    }
}

// Writes one special slot at a place; the answer is the place after it.
// `put_term` and this stay two: one function for both would take two widths, the value in two's complement and, for its contract, a layout.
fn put_special(place: BitPlace, slot: u16, band: u16, bytes: &mut [u8]) -> BitPlace
    requires { (slot < 512) × RoomFor special_layout place.at bytes.old }
    ensures { EntryPut special_layout (record { slot = slot; band = band }) place.at result.at bytes.old bytes.new }
{
    let band_place = place.after(BitPlace::SLOT);
    place.write(BitPlace::SLOT, slot, bytes);
    band_place.write(BitPlace::OWN_BAND, band, bytes);
    band_place.after(BitPlace::OWN_BAND)
}

// Writes zeros behind the last field, to the end of the last byte.
fn put_fill(terms: usize, specials: usize, bytes: &mut [u8])
    requires { FillFits terms specials bytes.old }
    ensures { bits_of bytes.new ≡ filled (fields_end (version_for specials) terms specials) (bits_of bytes.old) }
{
    let place = after_fields(version_for(specials), terms, specials);
    let end = 8 * bytes.len();
    place.write(end - place.at, 0, bytes);
}
