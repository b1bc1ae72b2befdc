// Records read into slices of terms and of special slots. In each refusal every later check would fail too, so the order shows. Every place of the destinations holds 9:9 before a call.
ghost use Rattle.std.specs.Prelude.{◌≤◌};

use crate::calls::read_record;
use crate::lists::{marked_places, marked_specials};
use crate::{end_with_specials, print_header, print_terms};
use printing::print_call;
use std::io;
use std::io::Write;

pub fn run(out: &mut impl Write) -> io::Result<()> {
    lengths(out)?;
    malformed(out)?;
    rest_values(out)?;
    bands(out)?;
    orders(out)?;
    nodes(out)?;
    values(out)?;
    special_slots(out)?;
    own_bands(out)?;
    places(out)?;
    special_places(out)
}

fn lengths(out: &mut impl Write) -> io::Result<()> {
    let bytes = [16u8, 24, 0, 200, 43, 192, 2, 1, 131, 219, 128, 0];
    read(out, b"the firing's first six bytes", &bytes[..6], 4)?;
    read(
        out,
        b"the firing's record without its last byte",
        &bytes[..10],
        4,
    )?;
    read(out, b"the firing's record with a byte more", &bytes, 4)
}

fn malformed(out: &mut impl Write) -> io::Result<()> {
    let version = [48u8, 28, 226, 10, 113, 8, 2, 0, 39, 16, 128];
    read(out, b"version 3 and a rest value above", &version, 0)?;
    let second = [32u8, 28, 226, 10, 113, 8, 2, 0, 39, 16, 128];
    read(
        out,
        b"version 2 too short for its second count and a rest value above",
        &second,
        0,
    )?;
    let fill = [16u8, 28, 226, 10, 113, 8, 2, 0, 39, 16, 129];
    read(out, b"fill not zero and a rest value above", &fill, 0)
}

fn rest_values(out: &mut impl Write) -> io::Result<()> {
    let above = [16u8, 28, 226, 10, 113, 8, 2, 0, 39, 16, 128];
    read(out, b"a rest value above", &above, 0)?;
    let below = [16u8, 28, 226, 13, 142, 248, 2, 0, 39, 16, 128];
    read(out, b"a rest value below", &below, 0)
}

fn bands(out: &mut impl Write) -> io::Result<()> {
    let above = [16u8, 28, 226, 10, 113, 0, 2, 0, 39, 16, 128];
    read(out, b"a band above", &above, 0)
}

fn orders(out: &mut impl Write) -> io::Result<()> {
    let descending = [16u8, 24, 0, 0, 0, 0, 4, 1, 128, 0, 128, 64, 0, 32];
    read(out, b"nodes that descend", &descending, 0)?;
    let twice = [16u8, 24, 0, 0, 0, 0, 4, 1, 128, 0, 128, 96, 0, 32];
    read(out, b"a node twice", &twice, 0)
}

fn nodes(out: &mut impl Write) -> io::Result<()> {
    let zero = [16u8, 24, 0, 0, 0, 0, 2, 0, 0, 0, 128];
    read(out, b"node 0", &zero, 0)?;
    let past = [16u8, 24, 0, 0, 0, 0, 2, 4, 0, 0, 128];
    read(out, b"a node past the last", &past, 0)
}

fn values(out: &mut impl Write) -> io::Result<()> {
    let above = [16u8, 24, 0, 0, 0, 0, 2, 0, 167, 16, 128];
    read(out, b"a value above", &above, 0)?;
    let below = [16u8, 24, 0, 0, 0, 0, 2, 0, 216, 239, 128];
    read(out, b"a value below", &below, 0)
}

// A version 2 with no special slot, and slots of special slots: past the last, twice, and descending.
fn special_slots(out: &mut impl Write) -> io::Result<()> {
    let none = [32u8, 24, 0, 200, 43, 192, 0, 0, 0];
    read(out, b"version 2 with no special slot", &none, 0)?;
    let past = [32u8, 24, 0, 200, 43, 192, 0, 0, 129, 0, 2, 128];
    read(out, b"a special slot past the last", &past, 0)?;
    let twice = [32u8, 24, 0, 200, 43, 192, 0, 1, 0, 64, 2, 128, 32, 1, 64];
    read(out, b"a special slot twice", &twice, 0)?;
    let descending = [32u8, 24, 0, 200, 43, 192, 0, 1, 0, 128, 2, 128, 32, 1, 64];
    read(out, b"special slots that descend", &descending, 0)
}

// Own bands: above 40,000, and the common one. A wrong term goes before a wrong special slot.
fn own_bands(out: &mut impl Write) -> io::Result<()> {
    let above = [32u8, 24, 0, 200, 43, 192, 0, 0, 128, 103, 16, 64];
    read(out, b"an own band above", &above, 0)?;
    let common = [32u8, 24, 0, 200, 43, 192, 0, 0, 128, 64, 6, 64];
    read(out, b"an own band that is the common one", &common, 0)?;
    let both = [32u8, 24, 0, 200, 43, 192, 2, 0, 0, 0, 128, 32, 64, 0, 160];
    read(out, b"node 0 and a special slot past the last", &both, 0)
}

fn places(out: &mut impl Write) -> io::Result<()> {
    let two = [16u8, 24, 0, 0, 0, 0, 4, 1, 0, 0, 128, 127, 255, 224];
    read(out, b"two terms into one place", &two, 1)?;
    read(out, b"two terms into two places", &two, 2)
}

// A term and two special slots, into a place too few for either, and into just enough.
fn special_places(out: &mut impl Write) -> io::Result<()> {
    let bytes = [
        32u8, 24, 0, 200, 43, 192, 2, 1, 131, 219, 128, 64, 16, 0, 160, 16, 0, 0,
    ];
    read_into(out, b"two special slots into one place", &bytes, 1, 1)?;
    read_into(out, b"their term into no place", &bytes, 0, 2)?;
    read_into(out, b"two special slots into two places", &bytes, 1, 2)
}

// Into that many places for terms, and none for special slots.
fn read(out: &mut impl Write, what: &[u8], bytes: &[u8], places: usize) -> io::Result<()>
    requires { places ≤ 1100 }
{
    read_into(out, what, bytes, places, 0)
}

// The refusal's number, slots, band, rest value, counts, and the destinations' places.
fn read_into(
    out: &mut impl Write,
    what: &[u8],
    bytes: &[u8],
    places: usize,
    others: usize,
) -> io::Result<()>
    requires { (places ≤ 1100) × (others ≤ 600) }
{
    let read = read_record(bytes, marked_places(), places, marked_specials(), others);
    let terms = read.terms;
    let specials = read.specials;
    print_call(out, b"read ", what)?;
    print_header(out, read.header)?;
    print_terms(out, terms)?;
    end_with_specials(out, specials)
}
