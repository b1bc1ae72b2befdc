// Lists of terms and of special slots, each in the first places of an array.
use bands::SpecialSlot;
use histogram::Term;

// A destination: every place holds the term 9:9.
pub fn marked_places() -> [Term; 1100] {
    let term = Term { node: 9, value: 9 };
    [term; 1100]
}

pub fn one_term(node: u16, value: i16) -> [Term; 1100] {
    let term = Term { node, value };
    [term; 1100]
}

pub fn two_terms(node: u16, value: i16, next_node: u16, next_value: i16) -> [Term; 1100] {
    let term = Term {
        node: next_node,
        value: next_value,
    };
    let mut terms = [term; 1100];
    terms[0] = Term { node, value };
    terms
}

// A term of value 7 at each node from 1 on.
pub fn every_node() -> [Term; 1100] {
    let mut terms = [Term { node: 0, value: 7 }; 1100];
    for i in 0..1100 {
        terms[i].node = (i + 1) as u16;
    }
    terms
}

// A destination: every place holds the special slot 9:9.
pub fn marked_specials() -> [SpecialSlot; 600] {
    let special = SpecialSlot { slot: 9, band: 9 };
    [special; 600]
}

// A special slot in every place, always the same.
pub fn one_special(slot: u16, band: u16) -> [SpecialSlot; 600] {
    let special = SpecialSlot { slot, band };
    [special; 600]
}

pub fn two_specials(slot: u16, band: u16, next_slot: u16, next_band: u16) -> [SpecialSlot; 600] {
    let special = SpecialSlot {
        slot: next_slot,
        band: next_band,
    };
    let mut specials = [special; 600];
    specials[0] = SpecialSlot { slot, band };
    specials
}

// The band 7 for each slot from 0 on.
pub fn every_slot() -> [SpecialSlot; 600] {
    let mut specials = [SpecialSlot { slot: 0, band: 7 }; 600];
    for i in 0..600 {
        specials[i].slot = i as u16;
    }
    specials
}
