// Slots: where the gates of a list stand, and the nodes that link them.
#![tactic(auto)]

pub mod nodes;

ghost use Rattle.std.specs.Prelude.{◌≡◌, ◌+◌, ◌*◌, ◌≤◌, ◌<◌, length};
ghost use Rattle.gates.specs.Records.{record_at};
ghost use Rattle.slots.specs.Live.{InLimits, prev_at, ranks_at, pairs_at, pair_prev_at, spare_at};

use gates::records::Record;
use gates::{Position, records};

// A place for a record; a gate keeps its slot as long as it lives, while its position falls when gates before it go.
#[derive(Clone, Copy, PartialEq, Eq, PartialOrd, Ord)]
pub struct Slot(pub usize);

impl Slot {
    // The record in a slot.
    pub fn record(self, records: &[u8]) -> Record
        requires { (16 * self.0 + 16 ≤ length records.now) × (self.0 < 1048576) }
        ensures { result ≡ record_at records.now self.0 }
    {
        records::record_at(records, Position(self.0 as u32))
    }
}

// Document 01's g and n: how many records and wires a call has. Its limits are no invariant of the type: what is held, and
// what a call leaves, is defined of every extent.
#[derive(Clone, Copy, PartialEq, Eq)]
pub struct Extent {
    pub gates: usize,
    pub wires: usize,
}

// Where each part of the words starts, in the order of specs/Live.antt.
impl Extent {
    pub fn prev_at(self) -> usize
        requires { InLimits self }
        ensures { result ≡ prev_at self }
    {
        3 * self.gates + self.wires
    }

    pub fn ranks_at(self) -> usize
        requires { InLimits self }
        ensures { result ≡ ranks_at self }
    {
        2 * self.prev_at()
    }

    pub fn pairs_at(self) -> usize
        requires { InLimits self }
        ensures { result ≡ pairs_at self }
    {
        self.ranks_at() + ranks::size_for(self.gates)
    }

    pub fn pair_prev_at(self) -> usize
        requires { InLimits self }
        ensures { result ≡ pair_prev_at self }
    {
        self.pairs_at() + (self.gates + 1)
    }

    pub fn spare_at(self) -> usize
        requires { InLimits self }
        ensures { result ≡ spare_at self }
    {
        self.pair_prev_at() + (self.gates + 1)
    }
}
