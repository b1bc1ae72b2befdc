// Two offers for one text, and the bytes of the part that is handed back.
use crate::texts::FIRING;
use offers::better_offer;
use printing::{print, print_bytes, print_call};
use std::io;
use std::io::Write;

// Document 01's record of one term, with two bytes behind it, and one of two terms for the same text.
const ONE_TERM: [u8; 13] = [16, 24, 0, 200, 43, 192, 2, 1, 131, 219, 128, 126, 0];

const TWO_TERMS: [u8; 14] = [16, 24, 0, 200, 43, 192, 4, 1, 2, 188, 0, 96, 246, 224];

// Prints every choice.
pub fn run(out: &mut impl Write) -> io::Result<()> {
    some(out)?;
    none(out)
}

// Offers of which one at least is a candidate.
fn some(out: &mut impl Write) -> io::Result<()> {
    choose(out, b"one term and two", &ONE_TERM, &TWO_TERMS)?;
    choose(out, b"two terms and one", &TWO_TERMS, &ONE_TERM)?;
    choose(out, b"one term twice", &ONE_TERM, &ONE_TERM)?;
    choose(
        out,
        b"one term cut short and two",
        &ONE_TERM[..10],
        &TWO_TERMS,
    )
}

// Offers of which none is.
fn none(out: &mut impl Write) -> io::Result<()> {
    choose(out, b"no bytes", &[], &[])?;
    choose(out, b"bytes before a count", &ONE_TERM[..6], &ONE_TERM[..7])?;
    choose(
        out,
        b"bytes behind a record",
        &ONE_TERM[11..],
        &ONE_TERM[12..],
    )?;
    choose_for(
        out,
        b"one term twice, for a text with a fault",
        b"14,00\n0,25\n14,10\n13,90\n20,00\n19,50\nx\n",
        &ONE_TERM,
        &ONE_TERM,
    )
}

// Two offers for document 01's firing.
fn choose(out: &mut impl Write, given: &[u8], first: &[u8], second: &[u8]) -> io::Result<()> {
    choose_for(out, given, FIRING, first, second)
}

// What is given, then the bytes of the better offer.
pub fn choose_for(
    out: &mut impl Write,
    given: &[u8],
    text: &[u8],
    first: &[u8],
    second: &[u8],
) -> io::Result<()> {
    print_call(out, b"better offer of ", given)?;
    print(out, b":")?;
    print_bytes(out, better_offer(text, first, second))?;
    print(out, b"\n")
}
