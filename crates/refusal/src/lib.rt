// Why a call is refused, and the number by which a host knows it.
#![tactic(auto)]

ghost use Rattle.std.specs.Prelude.{◌≡◌};
ghost use Rattle.refusal.specs.Refusal.{number_of, unless};

use std::error::Error;
use std::fmt;

// The port's own refusals (document 01, and 02 from `BadLength` on), and those of the reference, which are Linux's errno.
#[derive(Clone, Copy, Debug, PartialEq, Eq)]
pub enum Refusal {
    // A state, buffer or request of the wrong length.
    WrongLength,
    // A state that isn't well-formed, or a handed row that could stand in none.
    Malformed,
    // A request that isn't fit, or an allowance over its limit, or one that can't be added to the clock.
    Unfit,
    // A list would pass its limit.
    Full,
    // A length in a message that isn't right.
    BadLength,
    // A message of another type or family.
    OtherType,
    // An attribute of the wrong size, or a new address without a local one.
    WrongSize,
    // A netmask that is the mask of no prefix.
    BadMask,
    // An event of a kind that there isn't.
    UnknownEvent,
    // An event that can't be, or not on the rows before it.
    UnfitEvent,
    // More destinations than one call looks up.
    TooMany,
    // A destination below the one before it.
    NotRising,
    Errno(u32),
}

impl Refusal {
    // Numbers, since a host knows a refusal by its own; 200 to 211 are given here alone.
    pub fn number(self) -> u32
        ensures { result ≡ number_of self }
    {
        match self {
            Refusal::WrongLength => 200,
            Refusal::Malformed => 201,
            Refusal::Unfit => 202,
            Refusal::Full => 203,
            Refusal::BadLength => 204,
            Refusal::OtherType => 205,
            Refusal::WrongSize => 206,
            Refusal::BadMask => 207,
            Refusal::UnknownEvent => 208,
            Refusal::UnfitEvent => 209,
            Refusal::TooMany => 210,
            Refusal::NotRising => 211,
            Refusal::Errno(n) => n,
        }
    }
}

impl fmt::Display for Refusal {
    fn fmt<W: fmt::Write>(&self, f: &mut fmt::Formatter<W>) -> fmt::Result {
        write!(f, "refused {}", self.number())
    }
}

impl Error for Refusal {}

// A check that passes, or is refused.
pub fn unless(passes: bool, refusal: Refusal) -> Result<(), Refusal>
    ensures { result ≡ unless passes refusal }
{
    if passes { Ok(()) } else { Err(refusal) }
}
