// The record's layout: how long it is and where its fields stand. Its definition is in specs/Record.antt.
#![tactic(auto)]

ghost use Rattle.std.specs.Prelude.{◌≡◌, ◌+◌, ◌≤◌};
ghost use Rattle.record.specs.Record.{version_for, special_count_width, terms_end, fields_end, bytes_for};
ghost use Rattle.record.specs.Inner.{PlacesAre, Counted};

use bits::BitPlace;

// The version of a record with that many special slots. A version stays a number: the lengths and the places below are asked for with any number that stands in a record's bytes, and an enum of the known ones would ask for less.
pub fn version_for(specials: usize) -> u16
    ensures { result ≡ version_for specials }
{
    if specials == 0 { 1 } else { 2 }
}

// How many bytes a record of that version has, with that many terms and special slots: the whole part of (its bits + 7) / 8, as document 01 counts them.
pub fn record_length(version: u16, terms: usize, specials: usize) -> usize
    requires { Counted terms specials }
    ensures { result ≡ bytes_for version terms specials }
{
    (after_fields(version, terms, specials).at + 7) / 8
}

// The places of the fields after the version, in their order, and of the first term.
#[derive(Clone, Copy)]
pub struct FieldPlaces {
    pub length: BitPlace,
    pub band: BitPlace,
    pub rest: BitPlace,
    pub count: BitPlace,
    pub terms: BitPlace,
}

pub fn places() -> FieldPlaces
    ensures { PlacesAre result }
{
    let length = BitPlace::start().after(BitPlace::VERSION);
    let band = length.after(BitPlace::LENGTH);
    let rest = band.after(BitPlace::BAND);
    let count = rest.after(BitPlace::REST);
    let terms = count.after(BitPlace::COUNT);
    FieldPlaces {
        length,
        band,
        rest,
        count,
        terms,
    }
}

// The place after the last of that many terms; in version 2 the count of special slots stands there.
pub fn after_terms(terms: usize) -> BitPlace
    requires { terms ≤ 1023 }
    ensures { result.at ≡ terms_end terms }
{
    places().terms.after(BitPlace::TERM * terms)
}

// The place of the first special slot, behind their count.
pub fn first_special(terms: usize) -> BitPlace
    requires { terms ≤ 1023 }
    ensures { result.at ≡ terms_end terms + special_count_width }
{
    after_terms(terms).after(BitPlace::SPECIAL_COUNT)
}

// The place after the last field of a record of that version, with that many terms and special slots.
pub fn after_fields(version: u16, terms: usize, specials: usize) -> BitPlace
    requires { Counted terms specials }
    ensures { result.at ≡ fields_end version terms specials }
{
    if version == 2 {
        first_special(terms).after(BitPlace::SPECIAL * specials)
    } else {
        after_terms(terms)
    }
}
