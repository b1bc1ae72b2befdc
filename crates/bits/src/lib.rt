// Bit fields of up to 16 bits, most significant bit first, read and written by bytes.
#![tactic(auto)]

ghost use Rattle.std.specs.Prelude.{◌≡◌, ◌+◌, ◌≤◌, ◌<◌, ◌^◌, get_or, set};
ghost use Rattle.std.proofs.lemmas.List.Edits.{sets};
ghost use Rattle.bits.specs.Bits.{bits, bits_of, field_at, replaced_at};
ghost use Rattle.bits.specs.Signed.{complement, signed_of};
ghost use Rattle.bits.specs.Inner.{Within, Fitting, FittingSigned, SignedBits, FieldInWord, word_at, word_bytes, with_field};

// A place in a record: a bit number, counted from the first byte's top bit.
#[derive(Clone, Copy, Debug, PartialEq, Eq)]
pub struct BitPlace {
    pub at: usize,
}

impl BitPlace {
    // The widths of a record's fields.
    pub const VERSION: usize = 4;

    pub const LENGTH: usize = 9;

    pub const BAND: usize = 16;

    pub const REST: usize = 16;

    pub const COUNT: usize = 10;

    pub const NODE: usize = 10;

    pub const VALUE: usize = 16;

    // The width of a whole term.
    pub const TERM: usize = Self::NODE + Self::VALUE;

    pub const SPECIAL_COUNT: usize = 10;

    pub const SLOT: usize = 9;

    pub const OWN_BAND: usize = 16;

    // The width of a whole special slot.
    pub const SPECIAL: usize = Self::SLOT + Self::OWN_BAND;

    // The first bit.
    pub fn start() -> Self
        ensures { result.at ≡ 0 }
    {
        BitPlace { at: 0 }
    }

    // The place after a field of that width.
    pub fn after(self, width: usize) -> Self
        requires { self.at + width < 2 ^ 64 }
        ensures { result.at ≡ self.at + width }
    {
        BitPlace {
            at: self.at + width,
        }
    }

    // The number in the field at this place. A field of 16 bits touches three bytes at most.
    pub fn read(self, width: usize, bytes: &[u8]) -> u16
        requires { Within bytes.now self.at width }
        ensures { result ≡ field_at bytes.now self.at width }
    {
        let at = self.at;
        let shift = at % 8;
        let word = word_at(bytes, at / 8);
        let after = 24 - shift - width;
        ((word >> after) % (1u32 << width)) as u16
    }

    // Puts a number into the field at this place and leaves every other bit.
    pub fn write(self, width: usize, number: u16, bytes: &mut [u8])
        requires { Fitting bytes.old self.at width number }
        ensures { bits_of bytes.new ≡ replaced_at self.at (bits width number) (bits_of bytes.old) }
    {
        let at = self.at;
        let first = at / 8;
        let shift = at % 8;
        let word = word_at(bytes, first);
        let after = 24 - shift - width;
        put_word(
            bytes,
            first,
            with_field(word, width, after, u32::from(number)),
        );
    }

    // The signed number in the field at this place, in two's complement.
    pub fn read_signed(self, width: usize, bytes: &[u8]) -> i16
        requires { Within bytes.now self.at width }
        ensures { result ≡ signed_of width (field_at bytes.now self.at width) }
    {
        signed_of(width, self.read(width, bytes))
    }

    // Puts a signed number into the field at this place, in two's complement, and leaves every other bit.
    pub fn write_signed(self, width: usize, number: i16, bytes: &mut [u8])
        requires { FittingSigned bytes.old self.at width number }
        ensures { bits_of bytes.new ≡ replaced_at self.at (bits width (complement width number)) (bits_of bytes.old) }
    {
        self.write(width, complement_of(width, number), bytes);
    }
}

// The signed number that one of `width` bits stands for.
fn signed_of(width: usize, number: u16) -> i16
    requires { (width ≤ 16) × (number < 2 ^ width) }
    ensures { result ≡ signed_of width number }
{
    let wide = u32::from(number);
    let limit = 1u32 << width;
    if 2 * wide < limit {
        wide as i16
    } else {
        (0 - (limit - wide) as i32) as i16
    }
}

// The number of `width` bits that stands for a signed one: itself, or 2^width more where it is below zero. Of its 16 bits these are the last `width`.
pub fn complement_of(width: usize, number: i16) -> u16
    requires { (width ≤ 16) × SignedBits width number }
    ensures { result ≡ complement width number }
{
    (u32::from(number.cast_unsigned()) % (1u32 << width)) as u16
}

// The byte at an index, and 0 past the end. By an index: what `get` gives back holds a pointer, which firmware/audit refuses, since it has 4 bytes on the panel's core.
fn byte_at(bytes: &[u8], i: usize) -> u32
    ensures { result ≡ get_or bytes.now i 0 }
{
    if i < bytes.len() {
        u32::from(bytes[i])
    } else {
        0
    }
}

// Stores a byte, and nothing past the end. By an index for the same reason.
fn put_byte(bytes: &mut [u8], i: usize, byte: u8)
    ensures { bytes.new ≡ set bytes.old i byte }
{
    if i < bytes.len() {
        bytes[i] = byte;
    }
}

// Three bytes from an index on, as one number. By products: with `from_be_bytes`, and `to_be_bytes` below, the panel's core takes more instructions for each field.
fn word_at(bytes: &[u8], i: usize) -> u32
    requires { i + 2 < 2 ^ 64 }
    ensures { result ≡ word_at bytes.now i }
{
    byte_at(bytes, i) * 65536 + byte_at(bytes, i + 1) * 256 + byte_at(bytes, i + 2)
}

// Stores a number of 24 bits as three bytes from an index on.
fn put_word(bytes: &mut [u8], i: usize, word: u32)
    requires { i + 2 < 2 ^ 64 }
    ensures { bytes.new ≡ sets bytes.old i (word_bytes word) }
{
    put_byte(bytes, i, (word / 65536 % 256) as u8);
    put_byte(bytes, i + 1, (word / 256 % 256) as u8);
    put_byte(bytes, i + 2, (word % 256) as u8);
}

// A number of 24 bits with another in its field of `width` bits that `after` bits follow.
fn with_field(word: u32, width: usize, after: usize, number: u32) -> u32
    requires { FieldInWord word width after number }
    ensures { result ≡ with_field word width after number }
{
    let high = (word >> after) >> width;
    (((high << width) + number) << after) + word % (1u32 << after)
}
