// Reading a number: at the front of some bytes, or as a field to its last byte.
ghost use Rattle.std.specs.Prelude.{◌≡◌, ◌+◌, ◌*◌, ◌<◌, ◌≤◌, true, length, pos, slice_index, SomeIff};
ghost use Rattle.refusals.specs.Answers.{refused_with, answered};
ghost use Rattle.decimal.specs.Number.{is_digit, digit, rounded, unsigned, reads_as};
ghost use Rattle.decimal.specs.Answers.{NumberRead};
ghost use Rattle.decimal.specs.Inner.{FrontRead, PartRead, UnitsRead, Marked, DigitsRead, with_units};

use refusals::Refusal;

// The number that some bytes begin with, and how many of them it takes.
// Where there is none, the count is beyond the bytes, so that it is no field's length and no byte follows it.
#[derive(Clone, Copy)]
pub struct Front {
    pub number: i32,
    pub count: usize,
}

// The same without a sign. An `Option` of it would say that there is none, but come back in memory and not in two registers: 4 to 14 instructions more a number.
#[derive(Drop)]
struct Part {
    pub number: u32,
    pub count: usize,
}

// The three bytes after a mark, each 0 where none is.
#[derive(Drop)]
struct Digits {
    pub tenths: u8,
    pub hundredths: u8,
    pub thousandths: u8,
}

// The number that a field reads as, in hundredths.
pub fn read_number(field: &[u8]) -> Result<i32, Refusal>
    ensures { NumberRead field.now (refused_with result) (answered (pos 0) result) }
{
    let front = read_front(field);
    if front.count == field.len() {
        Ok(front.number)
    } else {
        Err(Refusal::NotANumber)
    }
}

// The number that some bytes begin with, up to a byte that does not go on with it; a mark that no digit follows leaves none.
pub fn read_front(bytes: &[u8]) -> Front
    ensures { FrontRead reads_as bytes.now result.number result.count }
{
    if let [b'-', plain @ ..] = bytes {
        let part = read_unsigned(plain);
        return Front {
            number: -(part.number as i32),
            count: part.count + 1,
        };
    }
    let part = read_unsigned(bytes);
    Front {
        number: part.number as i32,
        count: part.count,
    }
}

// The units, three digits at the most, and what follows them.
// Only parts of `bytes` are passed on, so that the compiler hands the slice over in registers.
fn read_unsigned(bytes: &[u8]) -> Part
    ensures { PartRead unsigned bytes.now result.number result.count }
{
    let units = read_units(&bytes[0..]);
    let count = units.count;
    if count == 0 {
        return no_number(&bytes[count..]);
    }
    let part = read_fraction(units.number, &bytes[count..]);
    Part {
        number: part.number,
        count: count + part.count,
    }
}

// The first digits of some bytes, three at the most.
#[inline(always)]
fn read_units(bytes: &[u8]) -> Part
    ensures { UnitsRead bytes.now result.count result.number }
{
    let mut units: u32 = 0;
    for count in 0..3 {
        let Some(digit) = digit_at(bytes, count) else {
            return Part {
                number: units,
                count,
            };
        };
        units = units * 10 + digit;
    }
    Part {
        number: units,
        count: 3,
    }
}

// The units with their fraction, in hundredths: a mark and its digits, or none.
// The compiler tests for the last of the two marks first, so the comma, the commoner one, is last.
fn read_fraction(units: u32, bytes: &[u8]) -> Part
    requires { units ≤ 999 }
    ensures { PartRead (with_units units) bytes.now result.number result.count }
{
    match bytes {
        [b'.', ..] => after_mark(units, bytes, 2),
        [b',', ..] => after_mark(units, bytes, 3),
        _ => Part {
            number: units * 100,
            count: 0,
        },
    }
}

// The units with the digits after a mark, `most` of them at the most.
fn after_mark(units: u32, bytes: &[u8], most: usize) -> Part
    requires { (units ≤ 999) × Marked bytes.now most }
    ensures { PartRead (with_units units) bytes.now result.number result.count }
{
    let digits = digits_after(bytes);
    let Some(tenths) = digit_of(digits.tenths) else {
        return no_number(bytes);
    };
    let one = (units * 10 + tenths) * 10;
    let Some(hundredths) = digit_of(digits.hundredths) else {
        return Part {
            number: one,
            count: 2,
        };
    };
    let two = one + hundredths;
    match digit_of(digits.thousandths) {
        Some(thousandths) if 3 <= most => Part {
            number: rounded_by(two, thousandths),
            count: 4,
        },
        _ => Part {
            number: two,
            count: 3,
        },
    }
}

// The bytes after a mark. Fewer than four bytes have no third one; for more the length is asked once, and not for each digit.
fn digits_after(bytes: &[u8]) -> Digits
    ensures { DigitsRead bytes.now result.tenths result.hundredths result.thousandths }
{
    match bytes {
        [_, tenths, hundredths, thousandths, ..] => Digits {
            tenths: *tenths,
            hundredths: *hundredths,
            thousandths: *thousandths,
        },
        _ => Digits {
            tenths: byte_at(bytes, 1),
            hundredths: byte_at(bytes, 2),
            thousandths: 0,
        },
    }
}

// Hundredths rounded by the third digit: from 5 on it counts one more. The sign comes later, so half goes away from zero.
fn rounded_by(hundredths: u32, third: u32) -> u32
    requires { (hundredths ≤ 99999) × (third ≤ 9) }
    ensures { result ≡ rounded (10 * hundredths + third) }
{
    if third < 5 {
        return hundredths;
    }
    hundredths + 1
}

// The answer where there is none.
fn no_number(bytes: &[u8]) -> Part
    ensures { (result.number ≡ 0) × (result.count ≡ length bytes.now + 1) }
{
    Part {
        number: 0,
        count: bytes.len() + 1,
    }
}

// The byte at a place, and 0 where none is. Not by `get`: firmware/audit refuses a pointer in an `Option`.
fn byte_at(bytes: &[u8], at: usize) -> u8
    ensures { result ≡ slice_index bytes.now at }
{
    if at < bytes.len() { bytes[at] } else { 0 }
}

// The digit at a place, where one is.
fn digit_at(bytes: &[u8], at: usize) -> Option<u32>
    ensures { SomeIff result (is_digit (slice_index bytes.now at) ≡ true) (digit (slice_index bytes.now at)) }
{
    digit_of(byte_at(bytes, at))
}

// The digit that a byte stands for, where it stands for one.
fn digit_of(byte: u8) -> Option<u32>
    ensures { SomeIff result (is_digit byte ≡ true) (digit byte) }
{
    match byte {
        b'0'..=b'9' => Some(u32::from(byte - b'0')),
        _ => None,
    }
}
