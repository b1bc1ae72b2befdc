// Writing a number out: no leading zero before the units digit, a comma and two digits, minus only below zero.
ghost use Rattle.std.specs.Prelude.{◌+◌, ◌/◌, ◌%◌, ◌<◌, ◌≤◌, [], ◌∷◌, unsigned_abs};
ghost use Rattle.refusals.specs.Answers.{refused_with, answered};
ghost use Rattle.decimal.specs.Written.{digit_byte, written, written_sign, written_units, written_unsigned};
ghost use Rattle.decimal.specs.Answers.{NumberWritten};
ghost use Rattle.decimal.specs.Inner.{Grown};

use refusals::Refusal;

// A text that grows byte by byte; the longest is `-400,00`, and the panel has no heap.
#[derive(Drop)]
struct Text {
    pub bytes: [u8; 7],
    pub count: usize,
}

// Writes a number in hundredths over the front of `destination`, and answers how many bytes it takes.
pub fn write_number(number: i32, destination: &mut [u8]) -> Result<usize, Refusal>
    ensures { NumberWritten number (refused_with result) (answered 0 result) destination.old destination.new }
{
    if limits::is_beyond(limits::WRITTEN_LIMIT, number) {
        return Err(Refusal::ValueBeyond);
    }
    let text = Text::of(number);
    let count = text.count;
    if destination.len() < count {
        return Err(Refusal::OutputShort);
    }
    limits::lay(&text.bytes[..count], destination);
    Ok(count)
}

impl Text {
    // The text of a number.
    fn of(number: i32) -> Text
        requires { unsigned_abs number ≤ 40000 }
        ensures { Grown [] 0 (written number) result.bytes result.count }
    {
        Text::of_sign(number).with_unsigned(number.unsigned_abs())
    }

    // The text of a number's sign.
    fn of_sign(number: i32) -> Text
        ensures { Grown [] 0 (written_sign number) result.bytes result.count }
    {
        let empty = Text {
            bytes: [0; 7],
            count: 0,
        };
        if number < 0 {
            empty.with_byte(b'-')
        } else {
            empty
        }
    }

    fn with_unsigned(self, hundredths: u32) -> Text
        requires { (self.count ≤ 1) × (hundredths ≤ 40000) }
        ensures { Grown self.bytes self.count (written_unsigned hundredths) result.bytes result.count }
    {
        self.with_units(hundredths / 100)
            .with_byte(b',')
            .with_digit(hundredths / 10 % 10)
            .with_digit(hundredths % 10)
    }

    fn with_units(self, units: u32) -> Text
        requires { (self.count ≤ 1) × (units ≤ 999) }
        ensures { Grown self.bytes self.count (written_units units) result.bytes result.count }
    {
        if units < 10 {
            return self.with_digit(units);
        }
        let tens = units / 10;
        if units < 100 {
            return self.with_digit(tens).with_digit(units % 10);
        }
        self.with_digit(units / 100)
            .with_digit(tens % 10)
            .with_digit(units % 10)
    }

    fn with_digit(self, digit: u32) -> Text
        requires { (self.count < 7) × (digit ≤ 9) }
        ensures { Grown self.bytes self.count (digit_byte digit ∷ []) result.bytes result.count }
    {
        self.with_byte(b'0' + digit as u8)
    }

    fn with_byte(mut self, byte: u8) -> Text
        requires { self.count < 7 }
        ensures { Grown self.bytes self.count (byte ∷ []) result.bytes result.count }
    {
        self.bytes[self.count] = byte;
        self.count += 1;
        self
    }
}
