// The firing of document 01 with a band of its own for slot 1: its text is read, its terms are built, written to a record of version 2 and read back.
use crate::calls::{build, read_profile, read_record, write_record};
use crate::lists::{marked_places, marked_specials};
use crate::{
    end_with_specials, end_with_terms, print_built, print_header, print_terms, print_typed,
    print_written,
};
use bands::SpecialSlot;
use histogram::Term;
use printing::{print, print_bytes, print_setpoints};
use std::io;
use std::io::Write;

pub fn run(out: &mut impl Write) -> io::Result<()> {
    let mut setpoints = [7i16; 4];
    let typed = read_profile(
        b"14,00\n0,25\n14,10\n13,90 0,05\n20,00\n19,50\n",
        &mut setpoints,
        marked_specials(),
        1,
    );
    let specials = typed.specials;
    print(out, b"a firing with a special slot is read")?;
    print_typed(out, typed.answer)?;
    print_setpoints(out, &setpoints)?;
    end_with_specials(out, specials)?;
    terms(out, &setpoints, specials)
}

fn terms(out: &mut impl Write, setpoints: &[i16], specials: [SpecialSlot; 600]) -> io::Result<()> {
    let mut scratch = [9i16; 12288];
    let built = build(
        setpoints,
        1400,
        25,
        specials,
        1,
        marked_places(),
        4,
        &mut scratch,
    );
    let terms = built.terms;
    print(out, b"it is built")?;
    print_built(out, built.answer)?;
    end_with_terms(out, terms)?;
    write(out, terms, specials)
}

// The record of its two terms and its special slot, into as many bytes as it has.
fn write(
    out: &mut impl Write,
    terms: [Term; 1100],
    specials: [SpecialSlot; 600],
) -> io::Result<()> {
    let mut bytes = [255u8; 18];
    let answer = write_record(4, 25, 1400, terms, 2, specials, 1, &mut bytes);
    print(out, b"its record")?;
    print_written(out, answer)?;
    print_bytes(out, &bytes)?;
    print(out, b"\n")?;
    read(out, &bytes)
}

fn read(out: &mut impl Write, bytes: &[u8]) -> io::Result<()> {
    let read = read_record(bytes, marked_places(), 2, marked_specials(), 1);
    let terms = read.terms;
    let specials = read.specials;
    print(out, b"read back")?;
    print_header(out, read.header)?;
    print_terms(out, terms)?;
    end_with_specials(out, specials)
}
