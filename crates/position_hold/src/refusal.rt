// Why a look at the position is refused.
ghost use Rattle.std.specs.Prelude.{◌≡◌};
ghost use Rattle.position_hold.specs.Fix.{refusal_number};
ghost use Rattle.position_hold.specs.declared.refusal.LookRefusal.TheVariants.{Read};

use manager::Refusal;
use std::error::Error;
use std::fmt;

// The causes of refusal, in the order in which they are tested.
#[derive(Clone, Copy, Debug, PartialEq, Eq)]
pub enum LookRefusal {
    // A hold that is too short or too long.
    WrongHold,
    // A read of one of the fix's words that the machine refused.
    Read(Refusal),
}

impl LookRefusal {
    // The number that stands for the refusal: a read's keeps its own.
    pub fn number(self) -> u8
        ensures { result ≡ refusal_number self }
    {
        match self {
            LookRefusal::WrongHold => 14,
            LookRefusal::Read(refusal) => refusal.number(),
        }
    }
}

impl From<Refusal> for LookRefusal {
    ghost from_gives = { λ read look. look ≡ Read read };

    // The refusal of a read, which is the look's.
    fn from(refusal: Refusal) -> LookRefusal {
        LookRefusal::Read(refusal)
    }
}

impl fmt::Display for LookRefusal {
    fn fmt<W: fmt::Write>(&self, f: &mut fmt::Formatter<W>) -> fmt::Result {
        match self {
            LookRefusal::WrongHold => f.write_str("the hold is too short or too long"),
            LookRefusal::Read(refusal) => write!(f, "the fix cannot be read: {refusal}"),
        }
    }
}

impl Error for LookRefusal {}
