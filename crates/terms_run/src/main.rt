// Calls the library on slices of terms and of special slots, and prints each call with its answer and what it leaves in lent memory:
// document 01's firing from building to restoring, the same with a special slot from its text on, then the refusals of each call.
#![tactic(auto)]

mod building;
mod calls;
mod firing;
mod lists;
mod reading;
mod restoring;
mod special_firing;
mod typing;
mod writing;

use bands::SpecialSlot;
use build::BuiltSynopsis;
use histogram::Term;
use printing::{
    print, print_count_after, print_number_after, print_outcome, print_special, print_term,
};
use profile::TextNumbers;
use record_read::Header;
use refusals::Refusal;
use std::io;
use std::io::Write;

fn main(rt: HostRuntime) -> io::Result<()> {
    let mut out = rt.stdout();
    firing::run(&mut out)?;
    special_firing::run(&mut out)?;
    building::run(&mut out)?;
    writing::run(&mut out)?;
    reading::run(&mut out)?;
    restoring::run(&mut out)?;
    typing::run(&mut out)
}

// Prints the refusal's number, the count and the greatest error.
fn print_built(out: &mut impl Write, answer: Result<BuiltSynopsis, Refusal>) -> io::Result<()> {
    print_outcome(out, &answer)?;
    let built = answer.unwrap_or(BuiltSynopsis { count: 0, error: 0 });
    print_count_after(out, b" ", built.count)?;
    print_number_after(out, b" ", i32::from(built.error))
}

// Prints the refusal's number and the count of bytes.
fn print_written(out: &mut impl Write, answer: Result<usize, Refusal>) -> io::Result<()> {
    print_outcome(out, &answer)?;
    print_count_after(out, b" ", answer.unwrap_or(0))
}

// Prints the refusal's number, the slots, the band, the rest value and the counts of terms and of special slots.
fn print_header(out: &mut impl Write, answer: Result<Header, Refusal>) -> io::Result<()> {
    let nothing = Header {
        slots: 0,
        band: 0,
        rest: 0,
        count: 0,
        specials: 0,
    };
    print_outcome(out, &answer)?;
    let header = answer.unwrap_or(nothing);
    print_count_after(out, b" ", header.slots)?;
    print_number_after(out, b" ", header.band)?;
    print_number_after(out, b" ", header.rest)?;
    print_count_after(out, b" ", header.count)?;
    print_count_after(out, b" ", header.specials)
}

// Prints the refusal's number, the rest value, the band and the counts of slots and of special slots.
fn print_typed(out: &mut impl Write, answer: Result<TextNumbers, Refusal>) -> io::Result<()> {
    let nothing = TextNumbers {
        rest: 0,
        band: 0,
        slots: 0,
        specials: 0,
    };
    print_outcome(out, &answer)?;
    let numbers = answer.unwrap_or(nothing);
    print_number_after(out, b" ", numbers.rest)?;
    print_number_after(out, b" ", numbers.band)?;
    print_count_after(out, b" ", numbers.slots)?;
    print_count_after(out, b" ", numbers.specials)
}

// Prints the first four places of a destination.
fn print_terms(out: &mut impl Write, terms: [Term; 1100]) -> io::Result<()> {
    print_place(out, terms[0])?;
    print_place(out, terms[1])?;
    print_place(out, terms[2])?;
    print_place(out, terms[3])
}

// Ends a line with them.
fn end_with_terms(out: &mut impl Write, terms: [Term; 1100]) -> io::Result<()> {
    print_terms(out, terms)?;
    print(out, b"\n")
}

fn print_place(out: &mut impl Write, term: Term) -> io::Result<()> {
    print_term(out, term.node, term.value)
}

// Ends a line with the first two places of a destination for special slots.
fn end_with_specials(out: &mut impl Write, specials: [SpecialSlot; 600]) -> io::Result<()> {
    print(out, b" and")?;
    print_special_place(out, specials[0])?;
    print_special_place(out, specials[1])?;
    print(out, b"\n")
}

fn print_special_place(out: &mut impl Write, special: SpecialSlot) -> io::Result<()> {
    print_special(out, special.slot, special.band)
}
