// What can be wrong with an input, by document 01's number, and where.
ghost use Rattle.std.specs.Prelude.{◌≡◌};
ghost use Rattle.intake.specs.Faults.{number_in, fault_of, refusal};

use gates::Position;
use gates::records::NoGate;

// The faults that the tests 1 to 12 find, each with its number.
#[derive(Clone, Copy, PartialEq, Eq)]
pub enum Fault {
    TooWide = 1,
    NotWhole = 2,
    TooLong = 3,
    OutputShort = 4,
    WorkShort = 5,
    JournalShort = 6,
    Angle = 7,
    UnknownKind = 8,
    NotZero = 9,
    WireOver = 10,
    WireTwice = 11,
    BitOver = 12,
}

// A fault, and the record that has it; place 0 where no record has.
#[derive(Clone, Copy, PartialEq, Eq)]
pub struct Refusal {
    pub fault: Fault,
    pub place: Position,
}

impl Fault {
    // Document 01's number.
    pub fn number(self) -> u32
        ensures { result ≡ number_in self }
    {
        self as u32
    }

    // The refusal for this fault, at a place.
    pub fn at(self, place: Position) -> Refusal
        ensures { result ≡ refusal self place }
    {
        Refusal { fault: self, place }
    }
}

impl From<NoGate> for Fault {
    ghost from_gives = { λ why fault. fault ≡ fault_of why };

    fn from(why: NoGate) -> Fault {
        match why {
            NoGate::Angle => Fault::Angle,
            NoGate::Unknown => Fault::UnknownKind,
            NoGate::NotZero => Fault::NotZero,
        }
    }
}
