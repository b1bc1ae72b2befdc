// Document 01's firing, which has no special slot: its terms are built, written to a record and read back, and its setpoints are restored.
use crate::calls::{build, read_record, restore_profile, restore_slot, write_record};
use crate::lists::{marked_places, marked_specials};
use crate::{
    end_with_specials, end_with_terms, print_built, print_header, print_terms, print_written,
};
use histogram::Term;
use printing::{
    print, print_bytes, print_count_after, print_outcome, print_setpoint, print_setpoints,
};
use std::io;
use std::io::Write;

pub fn run(out: &mut impl Write) -> io::Result<()> {
    let setpoints = [1410i16, 1390, 2000, 1950];
    let mut scratch = [9i16; 12288];
    let built = build(
        &setpoints,
        1400,
        25,
        marked_specials(),
        0,
        marked_places(),
        4,
        &mut scratch,
    );
    let terms = built.terms;
    print(out, b"the firing is built")?;
    print_built(out, built.answer)?;
    end_with_terms(out, terms)?;
    write(out, terms)
}

// The record of its one term, into as many bytes as it has.
fn write(out: &mut impl Write, terms: [Term; 1100]) -> io::Result<()> {
    let mut bytes = [255u8; 11];
    let answer = write_record(4, 25, 1400, terms, 1, marked_specials(), 0, &mut bytes);
    print(out, b"its record")?;
    print_written(out, answer)?;
    print_bytes(out, &bytes)?;
    print(out, b"\n")?;
    read(out, &bytes)
}

fn read(out: &mut impl Write, bytes: &[u8]) -> io::Result<()> {
    let read = read_record(bytes, marked_places(), 4, marked_specials(), 0);
    let terms = read.terms;
    let specials = read.specials;
    print(out, b"read back")?;
    print_header(out, read.header)?;
    print_terms(out, terms)?;
    end_with_specials(out, specials)?;
    restore(out, terms)
}

fn restore(out: &mut impl Write, terms: [Term; 1100]) -> io::Result<()> {
    slot(out, terms, 0)?;
    slot(out, terms, 1)?;
    slot(out, terms, 2)?;
    slot(out, terms, 3)?;
    profile(out, terms)
}

fn slot(out: &mut impl Write, terms: [Term; 1100], asked: usize) -> io::Result<()> {
    let answer = restore_slot(4, 1400, terms, 1, asked);
    print_count_after(out, b"its slot ", asked)?;
    print_outcome(out, &answer)?;
    print_setpoint(out, answer.unwrap_or(0))?;
    print(out, b"\n")
}

// All slots, with a place to spare.
fn profile(out: &mut impl Write, terms: [Term; 1100]) -> io::Result<()> {
    let mut setpoints = [7i16; 5];
    let answer = restore_profile(4, 1400, terms, 1, &mut setpoints);
    print(out, b"its profile")?;
    print_outcome(out, &answer)?;
    print_setpoints(out, &setpoints)?;
    print(out, b"\n")
}
