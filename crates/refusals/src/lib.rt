// What the panel turns away: the rows of document 01's table and of document 02's, under the names that panel.h gives them.
#![tactic(auto)]

ghost use Rattle.std.specs.Prelude.{◌≡◌, Some};
ghost use Rattle.std.specs.Fmt.{decimal};
ghost use Rattle.refusals.specs.Rows.{row};

use std::error::Error;
use std::fmt;

#[derive(Clone, Copy, Debug, PartialEq, Eq, Hash)]
pub enum Refusal {
    NotANumber = 1,
    ValueBeyond,
    BandBeyond,
    SlotsBeyond,
    BudgetBeyond,
    OutputShort,
    NotARecord,
    TermsWrong,
    LengthDiffers,
    NoSuchSlot,
    // Document 02's, of F-6.
    SpecialsWrong,
    HasSpecials,
    // Document 02's, of F-7.
    AirBeyond,
}

impl Refusal {
    // The number of its row, which C is handed.
    pub fn row(self) -> u8
        ensures { result ≡ row self }
    {
        self as u8
    }
}

// A refusal prints as its row's number.
impl fmt::Display for Refusal {
    ghost output = { λ refusal. Some (decimal (row refusal)) };

    fn fmt<W: fmt::Write>(&self, f: &mut fmt::Formatter<W>) -> fmt::Result {
        write!(f, "{}", self.row())
    }
}

impl Error for Refusal {}
