// Records without special slots written and read, and what the check refuses.
ghost use Rattle.std.specs.Prelude.{◌≡◌, length};

use printing::{
    print, print_bytes, print_call, print_count_after, print_number_after, print_outcome,
    print_special, print_term,
};
use record_check::check_record;
use record_read::{Header, read_record};
use record_write::write_record;
use refusals::Refusal;
use std::array::from_fn;
use std::io;
use std::io::Write;
use verdict::{Beyond, Verdict};

// Document 01's record.
pub const RECORD: [u8; 11] = [16, 24, 0, 200, 43, 192, 2, 1, 131, 219, 128];

// What is printed of a header with a refusal.
const NO_HEADER: Header = Header {
    slots: 0,
    band: 0,
    rest: 0,
    count: 0,
    specials: 0,
};

// Prints every record written, read and checked.
pub fn run(out: &mut impl Write) -> io::Result<()> {
    writing(out)?;
    reading(out)?;
    lengths(out)?;
    greatest_length(out)?;
    refused_checks(out)
}

// Records written, and what they are refused for.
fn writing(out: &mut impl Write) -> io::Result<()> {
    written(out)?;
    refused_headers(out)?;
    refused_terms(out)
}

// Records read, and what they are refused for.
fn reading(out: &mut impl Write) -> io::Result<()> {
    document(out)?;
    malformed(out)?;
    wrong_headers(out)?;
    wrong_terms(out)?;
    terms_without_places(out)
}

// Document 01's record, one of no term, and one of three.
fn written(out: &mut impl Write) -> io::Result<()> {
    write(out, 4, 25, 1400, &[3], &[1975])?;
    write(out, 4, 25, 1400, &[], &[])?;
    write(out, 4, 25, 1400, &[1, 2, 3], &[1975, 0, -20000])
}

// In each refusal every later check would fail too, so the order shows.
fn refused_headers(out: &mut impl Write) -> io::Result<()> {
    for (slots, band, rest) in [
        (0, -1, 20001),
        (513, -1, 20001),
        (4, -1, 20001),
        (4, -1, 0),
        (4, 40001, 0),
    ] {
        refuse(out, slots, band, rest, &[8, 8], &[1, 1])?;
    }
    Ok(())
}

// A node twice, and one past the last of 4 slots but not of 8.
fn refused_terms(out: &mut impl Write) -> io::Result<()> {
    refuse(out, 4, 40000, 0, &[8, 8], &[1, 1])?;
    refuse(out, 4, 40000, 0, &[8], &[1])?;
    refuse(out, 8, 40000, 0, &[8, 8], &[1, 1])?;
    write(out, 8, 40000, 0, &[8], &[1])
}

// Document 01's record: every byte, one byte fewer, and the first six.
fn document(out: &mut impl Write) -> io::Result<()> {
    read(out, b"document 01's record", &RECORD)?;
    read(out, b"it without its last byte", &RECORD[..10])?;
    read(out, b"its first six bytes", &RECORD[..6])
}

// Bytes that are no record: another version, and fill that is not zero.
fn malformed(out: &mut impl Write) -> io::Result<()> {
    let version = [0u8, 24, 0, 200, 43, 192, 2, 1, 131, 219, 128];
    read(out, b"version 0", &version)?;
    let fill = [16u8, 24, 0, 200, 43, 192, 2, 1, 131, 219, 129];
    read(out, b"fill not zero", &fill)
}

// Records whose header goes beyond a limit.
fn wrong_headers(out: &mut impl Write) -> io::Result<()> {
    let rest = [16u8, 24, 0, 202, 113, 8, 0];
    read(out, b"a rest value beyond the limit", &rest)?;
    let band = [16u8, 28, 226, 8, 0, 0, 0];
    read(out, b"a band beyond the limit", &band)
}

// Records of terms that no synopsis has.
fn wrong_terms(out: &mut impl Write) -> io::Result<()> {
    let twice = [16u8, 24, 0, 200, 0, 0, 4, 1, 128, 0, 128, 96, 0, 64];
    read(out, b"a node twice", &twice)?;
    let past = [16u8, 24, 0, 200, 0, 0, 2, 4, 0, 0, 128];
    read(out, b"a node past the last", &past)?;
    let zero = [16u8, 24, 0, 200, 0, 0, 2, 0, 0, 0, 128];
    read(out, b"node 0", &zero)?;
    let beyond = [16u8, 24, 0, 200, 0, 0, 2, 0, 167, 16, 128];
    read(out, b"a value beyond the limit", &beyond)
}

// A record of more terms than the destinations have places for.
fn terms_without_places(out: &mut impl Write) -> io::Result<()> {
    let two = [16u8, 24, 0, 200, 0, 0, 4, 0, 128, 2, 128, 64, 0, 192];
    read(out, b"two terms into one place", &two)
}

// Records of 0 and 1 terms, each into as many bytes as it has, and read back.
fn lengths(out: &mut impl Write) -> io::Result<()> {
    there_and_back(out, &[], &[], &mut [255; 7])?;
    there_and_back(out, &[1], &[7], &mut [255; 11])
}

// And of 1,023 terms, one at every node of 512 slots.
fn greatest_length(out: &mut impl Write) -> io::Result<()> {
    let nodes: [u16; 1023] = from_fn(|i| i as u16 + 1);
    there_and_back(out, &nodes, &[7; 1023], &mut [255; 3332])
}

// Writes a record of 512 slots and reads it back; then prints how many terms it has, both answers and the last places that were read to.
fn there_and_back(
    out: &mut impl Write,
    nodes: &[u16],
    values: &[i16],
    bytes: &mut [u8],
) -> io::Result<()>
    requires { length nodes.now ≡ length values.now }
{
    there_and_back_with(out, nodes, values, &[], &[], bytes)
}

// The same, with special slots.
pub fn there_and_back_with(
    out: &mut impl Write,
    nodes: &[u16],
    values: &[i16],
    specials: &[u16],
    own: &[u16],
    bytes: &mut [u8],
) -> io::Result<()>
    requires { (length nodes.now ≡ length values.now) × (length specials.now ≡ length own.now) }
{
    let answer = write_record(512, 300, 0, nodes, values, specials, own, bytes);
    print_counts(out, nodes.len(), specials.len())?;
    print_written(out, answer)?;
    print(out, b" bytes, read back")?;
    back(out, bytes)
}

// Prints how many terms and special slots a record has.
fn print_counts(out: &mut impl Write, terms: usize, specials: usize) -> io::Result<()> {
    print_count_after(out, b"a record of ", terms)?;
    print_count_after(out, b" terms and ", specials)?;
    print(out, b" special slots")
}

// Reads a record into as many places as any has, and prints the answer and what the last places hold.
fn back(out: &mut impl Write, bytes: &[u8]) -> io::Result<()> {
    let mut nodes = [0u16; 1023];
    let mut values = [0i16; 1023];
    let mut specials = [0u16; 512];
    let mut own = [0u16; 512];
    let header = read_record(bytes, &mut nodes, &mut values, &mut specials, &mut own);
    print_back(out, header)?;
    print_term(out, nodes[1022], values[1022])?;
    print_special(out, specials[511], own[511])?;
    print(out, b"\n")
}

// Prints the refusal's number and both counts.
fn print_back(out: &mut impl Write, answer: Result<Header, Refusal>) -> io::Result<()> {
    print_outcome(out, &answer)?;
    let header = answer.unwrap_or(NO_HEADER);
    print_count_after(out, b" ", header.count)?;
    print_count_after(out, b" ", header.specials)?;
    print(out, b", the last places")
}

// In each refusal every later check would fail too, so the order shows.
fn refused_checks(out: &mut impl Write) -> io::Result<()> {
    check(out, b"no setpoint", &[], &RECORD[..10])?;
    check(out, b"a short record", &[20001], &RECORD[..10])?;
    check(out, b"a setpoint beyond the limit", &[20001], &RECORD)?;
    check(out, b"another length", &[1410, 1390, 2000], &RECORD)
}

// Special slots that are wrong for every number of slots, and too many bytes for the destination.
fn refuse(
    out: &mut impl Write,
    slots: usize,
    band: i32,
    rest: i32,
    nodes: &[u16],
    values: &[i16],
) -> io::Result<()>
    requires { length nodes.now ≡ length values.now }
{
    let wrong = [600, 600];
    let own = [40001, 40001];
    write_with(out, slots, band, rest, nodes, values, &wrong, &own)
}

// Writes with no special slots.
fn write(
    out: &mut impl Write,
    slots: usize,
    band: i32,
    rest: i32,
    nodes: &[u16],
    values: &[i16],
) -> io::Result<()>
    requires { length nodes.now ≡ length values.now }
{
    write_with(out, slots, band, rest, nodes, values, &[], &[])
}

// The header, then the refusal's number, the count of bytes and the destination, which held 255 in every place.
pub fn write_with(
    out: &mut impl Write,
    slots: usize,
    band: i32,
    rest: i32,
    nodes: &[u16],
    values: &[i16],
    specials: &[u16],
    own: &[u16],
) -> io::Result<()>
    requires { (length nodes.now ≡ length values.now) × (length specials.now ≡ length own.now) }
{
    let mut bytes = [255u8; 16];
    let answer = write_record(slots, band, rest, nodes, values, specials, own, &mut bytes);
    print_header(out, b"write ", slots, band, rest)?;
    print_written(out, answer)?;
    print(out, b":")?;
    print_bytes(out, &bytes)?;
    print(out, b"\n")
}

// Prints the number of slots, the band and the rest value, after what stands before them.
fn print_header(
    out: &mut impl Write,
    before: &[u8],
    slots: usize,
    band: i32,
    rest: i32,
) -> io::Result<()> {
    print_count_after(out, before, slots)?;
    print_number_after(out, b" ", band)?;
    print_number_after(out, b" ", rest)
}

// Prints the refusal's number and the count of bytes.
fn print_written(out: &mut impl Write, answer: Result<usize, Refusal>) -> io::Result<()> {
    print_outcome(out, &answer)?;
    print_count_after(out, b" ", answer.unwrap_or(0))
}

// What it is, then the refusal's number, slots, band, rest value, both counts, and the destinations' one place for a term and for a special slot.
pub fn read(out: &mut impl Write, what: &[u8], bytes: &[u8]) -> io::Result<()> {
    let mut nodes = [9u16; 1];
    let mut values = [9i16; 1];
    let mut specials = [9u16; 1];
    let mut own = [9u16; 1];
    let header = read_record(bytes, &mut nodes, &mut values, &mut specials, &mut own);
    print_call(out, b"read ", what)?;
    print_read(out, header)?;
    print_term(out, nodes[0], values[0])?;
    print_special(out, specials[0], own[0])?;
    print(out, b"\n")
}

// Prints the refusal's number and the header.
fn print_read(out: &mut impl Write, answer: Result<Header, Refusal>) -> io::Result<()> {
    print_outcome(out, &answer)?;
    let header = answer.unwrap_or(NO_HEADER);
    print_header(out, b" ", header.slots, header.band, header.rest)?;
    print_count_after(out, b" ", header.count)?;
    print_count_after(out, b" ", header.specials)
}

// What it is, then the refusal's number and the verdict.
pub fn check(out: &mut impl Write, what: &[u8], setpoints: &[i16], bytes: &[u8]) -> io::Result<()> {
    let answer = check_record(setpoints, bytes);
    print_call(out, b"check ", what)?;
    print_outcome(out, &answer)?;
    print_verdict(out, answer.unwrap_or(Err(Beyond { slot: 0 })))
}

// Whether it is kept, the greatest error and the lowest slot beyond its band.
fn print_verdict(out: &mut impl Write, verdict: Verdict) -> io::Result<()> {
    match verdict {
        Ok(kept) => {
            print_count_after(out, b" kept ", usize::from(kept.error))?;
            print(out, b" 0\n")
        }
        Err(beyond) => {
            print_count_after(out, b" not kept 0 ", usize::from(beyond.slot))?;
            print(out, b"\n")
        }
    }
}
