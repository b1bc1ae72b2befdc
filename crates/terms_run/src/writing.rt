// Records written from slices of terms and of special slots. In each refusal every later check would fail too, so the order shows.
ghost use Rattle.std.specs.Prelude.{◌≤◌};

use crate::calls::write_record;
use crate::lists::{every_node, every_slot, one_special, one_term, two_specials, two_terms};
use crate::print_written;
use bands::SpecialSlot;
use histogram::Term;
use printing::{print, print_bytes, print_call};
use std::io;
use std::io::Write;

pub fn run(out: &mut impl Write) -> io::Result<()> {
    slots(out)?;
    rest_values(out)?;
    bands(out)?;
    orders(out)?;
    terms(out)?;
    too_many(out)?;
    greatest_number(out)?;
    special_slots(out)?;
    own_bands(out)?;
    too_many_specials(out)?;
    short(out)?;
    with_specials(out)
}

fn slots(out: &mut impl Write) -> io::Result<()> {
    let twice = two_terms(8, 1, 8, 1);
    write(out, b"no slots", 0, -1, 20001, twice, 2)?;
    write(out, b"513 slots", 513, -1, 20001, twice, 2)
}

fn rest_values(out: &mut impl Write) -> io::Result<()> {
    let twice = two_terms(8, 1, 8, 1);
    write(out, b"a rest value above", 4, -1, 20001, twice, 2)?;
    write(out, b"a rest value below", 4, -1, -20001, twice, 2)
}

fn bands(out: &mut impl Write) -> io::Result<()> {
    let twice = two_terms(8, 1, 8, 1);
    write(out, b"a band below", 4, -1, 0, twice, 2)?;
    write(out, b"a band above", 4, 40001, 0, twice, 2)
}

fn orders(out: &mut impl Write) -> io::Result<()> {
    write(
        out,
        b"nodes that descend",
        4,
        0,
        0,
        two_terms(3, 1, 2, 1),
        2,
    )?;
    write(out, b"a node twice", 4, 0, 0, two_terms(3, 1, 3, 1), 2)?;
    write(out, b"node 0", 4, 0, 0, two_terms(0, 1, 3, 1), 2)?;
    write(
        out,
        b"a node past the last",
        4,
        0,
        0,
        two_terms(3, 1, 8, 1),
        2,
    )
}

fn terms(out: &mut impl Write) -> io::Result<()> {
    write(out, b"a value above", 4, 0, 0, two_terms(2, 20001, 3, 1), 2)?;
    write(
        out,
        b"a value below",
        4,
        0,
        0,
        two_terms(2, 1, 3, -20001),
        2,
    )
}

// More terms than any list can have, in their turn.
fn too_many(out: &mut impl Write) -> io::Result<()> {
    let all = every_node();
    write(out, b"1,100 terms and no slots", 0, -1, 20001, all, 1100)?;
    write(
        out,
        b"1,100 terms and a rest value above",
        512,
        -1,
        20001,
        all,
        1100,
    )?;
    write(
        out,
        b"1,100 terms and a band above",
        512,
        40001,
        0,
        all,
        1100,
    )?;
    write(out, b"1,100 terms", 512, 40000, 0, all, 1100)
}

// As many terms as 512 slots have nodes, and one more.
fn greatest_number(out: &mut impl Write) -> io::Result<()> {
    let all = every_node();
    write(out, b"1,024 terms", 512, 0, 0, all, 1024)?;
    write_plain(out, b"1,023 terms into 12 bytes", 512, 0, 0, all, 1023)
}

// The slots of special slots: past the last, twice, and descending.
fn special_slots(out: &mut impl Write) -> io::Result<()> {
    special(
        out,
        b"a special slot past the last",
        two_specials(0, 9, 4, 9),
        2,
    )?;
    special(out, b"a special slot twice", two_specials(1, 9, 1, 9), 2)?;
    special(
        out,
        b"special slots that descend",
        two_specials(2, 9, 1, 9),
        2,
    )
}

// Their bands: above 40,000, and the common one.
fn own_bands(out: &mut impl Write) -> io::Result<()> {
    special(out, b"an own band above", one_special(3, 40001), 1)?;
    special(
        out,
        b"an own band that is the common one",
        one_special(3, 25),
        1,
    )
}

// More special slots than any list can have; and as many as 512 slots have, which only 12 bytes refuse.
fn too_many_specials(out: &mut impl Write) -> io::Result<()> {
    let all = every_slot();
    write_for(
        out,
        b"600 special slots",
        512,
        25,
        1400,
        one_term(3, 1975),
        1,
        all,
        600,
    )?;
    write_for(
        out,
        b"513 special slots",
        512,
        25,
        1400,
        one_term(3, 1975),
        1,
        all,
        513,
    )?;
    write_for(
        out,
        b"512 special slots into 12 bytes",
        512,
        25,
        1400,
        one_term(3, 1975),
        1,
        all,
        512,
    )
}

fn short(out: &mut impl Write) -> io::Result<()> {
    write_plain(
        out,
        b"2 terms into 12 bytes",
        4,
        0,
        0,
        two_terms(2, 1, 3, 1),
        2,
    )?;
    write_plain(
        out,
        b"a term into 12 bytes",
        4,
        25,
        1400,
        one_term(3, 1975),
        1,
    )?;
    write_plain(
        out,
        b"no term into 12 bytes",
        4,
        25,
        1400,
        one_term(3, 1975),
        0,
    )
}

// A special slot takes 35 bits in a record that had none.
fn with_specials(out: &mut impl Write) -> io::Result<()> {
    special(
        out,
        b"a term and a special slot into 12 bytes",
        one_special(1, 10),
        1,
    )?;
    write_for(
        out,
        b"a special slot and no term into 12 bytes",
        4,
        25,
        1400,
        one_term(3, 1975),
        0,
        one_special(1, 10),
        1,
    )
}

// A record of 4 slots with these special slots.
fn special(
    out: &mut impl Write,
    what: &[u8],
    specials: [SpecialSlot; 600],
    number: usize,
) -> io::Result<()>
    requires { number ≤ 600 }
{
    write_for(
        out,
        what,
        4,
        25,
        1400,
        one_term(3, 1975),
        1,
        specials,
        number,
    )
}

// With a special slot that is wrong in every record.
fn write(
    out: &mut impl Write,
    what: &[u8],
    slots: usize,
    band: i32,
    rest: i32,
    terms: [Term; 1100],
    count: usize,
) -> io::Result<()>
    requires { count ≤ 1100 }
{
    write_for(
        out,
        what,
        slots,
        band,
        rest,
        terms,
        count,
        one_special(512, 9),
        1,
    )
}

// With no special slot.
fn write_plain(
    out: &mut impl Write,
    what: &[u8],
    slots: usize,
    band: i32,
    rest: i32,
    terms: [Term; 1100],
    count: usize,
) -> io::Result<()>
    requires { count ≤ 1100 }
{
    write_for(
        out,
        what,
        slots,
        band,
        rest,
        terms,
        count,
        one_special(512, 9),
        0,
    )
}

// The refusal's number, the count of bytes and the destination, which held 255 in every place.
fn write_for(
    out: &mut impl Write,
    what: &[u8],
    slots: usize,
    band: i32,
    rest: i32,
    terms: [Term; 1100],
    count: usize,
    specials: [SpecialSlot; 600],
    number: usize,
) -> io::Result<()>
    requires { (count ≤ 1100) × (number ≤ 600) }
{
    let mut bytes = [255u8; 12];
    let answer = write_record(
        slots, band, rest, terms, count, specials, number, &mut bytes,
    );
    print_call(out, b"write ", what)?;
    print_written(out, answer)?;
    print_bytes(out, &bytes)?;
    print(out, b"\n")
}
