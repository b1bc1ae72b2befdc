// One line of a profile text, from a place on: its number, or its slot's setpoint and band, and the place behind the byte 10 that ends it.
// A place in the whole text is handed on, and no part of it: in the loop over the lines the compiler then keeps two numbers less.
ghost use Rattle.std.specs.Prelude.{◌≡◌, ◌≤◌, pos, length, get_or, drop};
ghost use Rattle.std.proofs.Math.Option.{some};
ghost use Rattle.profile.specs.Text.{value_refusal, band_refusal, line_number, slot_of, line_slot};
ghost use Rattle.profile.specs.Inner.{no_check, LineRead, SlotRead};

use decimal::read::read_front;
use refusals::Refusal;

const LINE_END: u8 = 10;

// What parts a setpoint from its slot's own band.
const SPACE: u8 = 32;

// The number of a line, and the place of the next line.
#[derive(Clone, Copy)]
pub struct Line {
    pub number: i32,
    pub next: usize,
}

// The setpoint of a line, the band that its slot goes by, and the place of the next line.
#[derive(Clone, Copy)]
pub struct SlotLine {
    pub setpoint: i16,
    pub band: u16,
    pub next: usize,
}

// A line as a rest value.
pub fn read_value(text: &[u8], at: usize) -> Result<Line, Refusal>
    ensures { LineRead value_refusal text.now at result }
{
    let line = read_line(text, at)?;
    if limits::is_beyond(limits::VALUE_LIMIT, line.number) {
        return Err(Refusal::ValueBeyond);
    }
    Ok(line)
}

// A line as the common band.
pub fn read_band(text: &[u8], at: usize) -> Result<Line, Refusal>
    ensures { LineRead band_refusal text.now at result }
{
    let line = read_line(text, at)?;
    if limits::is_outside_band(line.number) {
        return Err(Refusal::BandBeyond);
    }
    Ok(line)
}

// The byte 10 has to follow the number at the front.
fn read_line(text: &[u8], at: usize) -> Result<Line, Refusal>
    ensures { LineRead no_check text.now at result }
{
    if text.len() <= at {
        return Err(Refusal::SlotsBeyond);
    }
    let front = read_front(&text[at..]);
    let end = at + front.count;
    if byte_at(text, end) == LINE_END {
        return Ok(Line {
            number: front.number,
            next: end + 1,
        });
    }
    Err(Refusal::NotANumber)
}

// A line as a slot's: a setpoint, and behind a space the slot's own band.
// The compiler tests for the last of the two bytes first, so the line's end, the commoner one, is last.
pub fn read_slot(text: &[u8], at: usize, common: u16) -> Result<SlotLine, Refusal>
    requires { (at ≤ length text.now) × (common ≤ 40000) }
    ensures { SlotRead (line_slot (pos common) (drop at text.now)) text.now at result }
{
    let front = read_front(&text[at..]);
    let end = at + front.count;
    let mark = byte_at(text, end);
    if mark == SPACE {
        return read_own_band(text, end + 1, front.number);
    }
    if mark == LINE_END {
        if limits::is_beyond(limits::VALUE_LIMIT, front.number) {
            return Err(Refusal::ValueBeyond);
        }
        return Ok(SlotLine {
            setpoint: front.number as i16,
            band: common,
            next: end + 1,
        });
    }
    Err(Refusal::NotANumber)
}

// The rest of a slot's line, behind the space. Both fields are numbers before either is held to its limits.
fn read_own_band(text: &[u8], at: usize, setpoint: i32) -> Result<SlotLine, Refusal>
    ensures { SlotRead (slot_of (some setpoint) (line_number (drop at text.now))) text.now at result }
{
    let Ok(own) = read_line(text, at) else {
        return Err(Refusal::NotANumber);
    };
    if limits::is_beyond(limits::VALUE_LIMIT, setpoint) {
        return Err(Refusal::ValueBeyond);
    }
    if limits::is_outside_band(own.number) {
        return Err(Refusal::BandBeyond);
    }
    Ok(SlotLine {
        setpoint: setpoint as i16,
        band: own.number as u16,
        next: own.next,
    })
}

// The byte at a place, 0 where the text has ended.
// Not by `get`: a pointer in an `Option` lies elsewhere on a core with pointers of 32 bits, and firmware/audit refuses it.
fn byte_at(text: &[u8], at: usize) -> u8
    ensures { result ≡ get_or text.now at 0 }
{
    if at < text.len() { text[at] } else { 0 }
}
