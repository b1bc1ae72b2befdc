// The library's calls on slices of terms and of special slots, each lent the first places of an array.
// There is one for each call, and it does nothing else.
ghost use Rattle.std.specs.Prelude.{◌≤◌};

use bands::SpecialSlot;
use build::BuiltSynopsis;
use histogram::Term;
use profile::TextNumbers;
use record_read::Header;
use refusals::Refusal;

// What building answers, and its destination.
#[derive(Drop)]
pub struct Built {
    pub answer: Result<BuiltSynopsis, Refusal>,
    pub terms: [Term; 1100],
}

// What reading answers, and its destinations.
#[derive(Drop)]
pub struct Read {
    pub header: Result<Header, Refusal>,
    pub terms: [Term; 1100],
    pub specials: [SpecialSlot; 600],
}

// What reading a profile text answers, and its destination for special slots.
#[derive(Drop)]
pub struct Typed {
    pub answer: Result<TextNumbers, Refusal>,
    pub specials: [SpecialSlot; 600],
}

pub fn restore_slot(
    slots: usize,
    rest: i32,
    terms: [Term; 1100],
    count: usize,
    slot: usize,
) -> Result<i16, Refusal>
    requires { count ≤ 1100 }
{
    synopsis::restore_slot(slots, rest, &terms[..count], slot)
}

pub fn restore_profile(
    slots: usize,
    rest: i32,
    terms: [Term; 1100],
    count: usize,
    setpoints: &mut [i16],
) -> Result<(), Refusal>
    requires { count ≤ 1100 }
{
    synopsis::restore_profile(slots, rest, &terms[..count], setpoints)
}

pub fn write_record(
    slots: usize,
    band: i32,
    rest: i32,
    terms: [Term; 1100],
    count: usize,
    specials: [SpecialSlot; 600],
    number: usize,
    bytes: &mut [u8],
) -> Result<usize, Refusal>
    requires { (count ≤ 1100) × (number ≤ 600) }
{
    synopsis::write_record(
        slots,
        band,
        rest,
        &terms[..count],
        &specials[..number],
        bytes,
    )
}

pub fn read_record(
    bytes: &[u8],
    terms: [Term; 1100],
    places: usize,
    specials: [SpecialSlot; 600],
    others: usize,
) -> Read
    requires { (places ≤ 1100) × (others ≤ 600) }
{
    let mut destination = terms;
    let mut second = specials;
    let header = synopsis::read_record(bytes, &mut destination[..places], &mut second[..others]);
    made_read(header, destination, second)
}

fn made_read(
    header: Result<Header, Refusal>,
    terms: [Term; 1100],
    specials: [SpecialSlot; 600],
) -> Read {
    Read {
        header,
        terms,
        specials,
    }
}

pub fn build(
    setpoints: &[i16],
    rest: i32,
    band: i32,
    specials: [SpecialSlot; 600],
    number: usize,
    terms: [Term; 1100],
    places: usize,
    scratch: &mut [i16],
) -> Built
    requires { (number ≤ 600) × (places ≤ 1100) }
{
    let mut destination = terms;
    let answer = synopsis::build(
        setpoints,
        rest,
        band,
        &specials[..number],
        &mut destination[..places],
        scratch,
    );
    made_built(answer, destination)
}

fn made_built(answer: Result<BuiltSynopsis, Refusal>, terms: [Term; 1100]) -> Built {
    Built { answer, terms }
}

pub fn read_profile(
    text: &[u8],
    setpoints: &mut [i16],
    specials: [SpecialSlot; 600],
    places: usize,
) -> Typed
    requires { places ≤ 600 }
{
    let mut destination = specials;
    let answer = synopsis::read_profile(text, setpoints, &mut destination[..places]);
    made_typed(answer, destination)
}

fn made_typed(answer: Result<TextNumbers, Refusal>, specials: [SpecialSlot; 600]) -> Typed {
    Typed { answer, specials }
}
