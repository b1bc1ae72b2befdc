// Fires a profile text from standard input: document 01, "One firing in full".
#![tactic(auto)]

ghost use Rattle.std.specs.Prelude.{◌≡◌, ◌<◌, ◌≤◌, IfOk, length, take};
ghost use Rattle.std.specs.Io.KnownBytes.{Consumes, IsAtEnd};
ghost use Rattle.build.specs.Inner.{KnownProfile};

use build::build_first;
use decimal::write::write_number;
use histogram::restore::restore_profile;
use printing::{print, print_count, print_refused};
use profile::{TextNumbers, read_text};
use std::io;
use std::io::{Read, Write};

fn main(rt: HostRuntime) -> io::Result<()> {
    // One byte more than the longest text has decides for a text of any length (`first_bytes_read` in profile/proofs/Decided.antt):
    // of a longer text so many bytes hold a line that is too long for its numbers, or all the lines that a text may have and a byte more.
    let mut text = [0u8; profile::LONGEST_TEXT + 1];
    let count = read_full(&mut rt.stdin(), &mut text)?;
    fire(&mut rt.stdout(), &text[..count])
}

// Reads until the places are full or the input ends, and answers how many bytes it put at their start.
// `read_exact` would fail where the input ends first, and a `for` cannot step by what was read.
fn read_full<R: Read>(input: &mut R, places: &mut [u8]) -> io::Result<usize>
    ensures within { IfOk result (λ count. count ≤ length places.new) }
    ensures bytes { IfOk result (λ count. Consumes (R.remaining input.old) (R.remaining input.new) (take count places.new)) }
    ensures end { IfOk result (λ count. count < length places.new → IsAtEnd (R.remaining input.new)) }
{
    let mut done = 0;
    while done < places.len() {
        let count = input.read(&mut places[done..])?;
        if count == 0 {
            return Ok(done);
        }
        done += count;
    }
    Ok(done)
}

fn fire(out: &mut impl Write, text: &[u8]) -> io::Result<()> {
    let mut setpoints = [0i16; 512];
    let mut bands = [0u16; 512];
    match read_text(text, &mut setpoints, &mut bands) {
        Ok(numbers) => {
            let slots = numbers.slots;
            fire_profile(out, &setpoints[..slots], &bands[..slots], numbers)
        }
        Err(refusal) => print_refused(out, refusal),
    }
}

// Building refuses no profile that was read. The band printed is the common one.
fn fire_profile(
    out: &mut impl Write,
    setpoints: &[i16],
    bands: &[u16],
    numbers: TextNumbers,
) -> io::Result<()>
    requires { KnownProfile setpoints.now bands.now numbers.rest numbers.band numbers.specials }
{
    let mut nodes = [0u16; 512];
    let mut values = [0i16; 512];
    let mut scratch = [0i16; 12288];
    let built = build_first(
        setpoints,
        bands,
        numbers.band as u32,
        numbers.specials,
        numbers.rest,
        &mut nodes,
        &mut values,
        &mut scratch,
    );
    let count = built.count;
    print_summary(out, setpoints.len(), count, numbers.band, built.error)?;
    print_synopsis(
        out,
        setpoints.len(),
        numbers.rest,
        &nodes[..count],
        &values[..count],
    )
}

fn print_synopsis(
    out: &mut impl Write,
    slots: usize,
    rest: i32,
    nodes: &[u16],
    values: &[i16],
) -> io::Result<()>
    requires { (slots ≤ 512) × (length nodes.now ≡ length values.now) }
{
    print_terms(out, nodes, values)?;
    print_slots(out, slots, rest, nodes, values)
}

fn print_summary(
    out: &mut impl Write,
    slots: usize,
    terms: usize,
    band: i32,
    error: u16,
) -> io::Result<()> {
    print_count(out, slots)?;
    print(out, b" ")?;
    print_count(out, terms)?;
    print(out, b" ")?;
    print_hundredths(out, band)?;
    print(out, b" ")?;
    print_hundredths(out, i32::from(error))?;
    print(out, b"\n")
}

fn print_terms(out: &mut impl Write, nodes: &[u16], values: &[i16]) -> io::Result<()>
    requires { length nodes.now ≡ length values.now }
{
    for (node, value) in nodes.iter().zip(values) {
        print_line(out, b"term ", usize::from(*node), *value)?;
    }
    Ok(())
}

fn print_slots(
    out: &mut impl Write,
    slots: usize,
    rest: i32,
    nodes: &[u16],
    values: &[i16],
) -> io::Result<()>
    requires { (slots ≤ 512) × (length nodes.now ≡ length values.now) }
{
    let mut restored = [0i16; 512];
    // Nothing refuses a synopsis that was built.
    let _ = restore_profile(slots, rest, nodes, values, &mut restored);
    for (slot, value) in restored[..slots].iter().enumerate() {
        print_line(out, b"slot ", slot, *value)?;
    }
    Ok(())
}

fn print_line(out: &mut impl Write, name: &[u8], number: usize, value: i16) -> io::Result<()> {
    print(out, name)?;
    print_count(out, number)?;
    print(out, b" ")?;
    print_hundredths(out, i32::from(value))?;
    print(out, b"\n")
}

fn print_hundredths(out: &mut impl Write, number: i32) -> io::Result<()> {
    let mut text = [0u8; 8];
    let count = write_number(number, &mut text).unwrap_or(0);
    print(out, &text[..count])
}
