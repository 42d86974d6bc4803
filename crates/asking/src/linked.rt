// Questions about a list that is loaded and linked.
ghost use Rattle.std.specs.Prelude.{◌≡◌, true, ◌+◌, ◌*◌, ◌≤◌, ◌<◌, length, get_or};
ghost use Rattle.gates.specs.Gates.{wires_of, touches};
ghost use Rattle.rules.specs.Equal.{equal, is_pair};
ghost use Rattle.rules.specs.Sweeps.{cut};
ghost use Rattle.slots.specs.Slots.{gate_at, slot_of, found};
ghost use Rattle.slots.specs.Live.{is_live, held, later, Live};

use crate::loaded::LoadedList;
use gates::Wire;
use slots::{Extent, Slot, nodes};

// What is lent, and what it says while the list is loaded and linked.
#[derive(Clone, Copy)]
pub struct LiveList<'a> {
    pub records: &'a [u8],
    pub work: &'a [u32],
    pub extent: Extent,
    pub ghost live: { Live records.now work.now extent },
}

impl<'a> LiveList<'a> {
    // The list as it is loaded, for what asks for no more.
    pub fn loaded(&self) -> LoadedList<'a>
        ensures { (result.records.now ≡ self.now.records.now) × (result.work.now ≡ self.now.work.now) × (result.extent ≡ self.now.extent) }
    {
        LoadedList {
            records: self.records,
            work: self.work,
            extent: self.extent,
        }
    }

    // The earliest gate after a slot on the wire of one of its operands.
    pub fn after_on(&self, slot: Slot, operand: usize) -> Option<Slot>
        requires slot_live { is_live self.now.work.now self.now.extent slot.0 ≡ true }
        requires of_gate { operand < length (wires_of (gate_at self.now.records.now slot.0)) }
        ensures { result ≡ found (slot_of (cut (touches (get_or (wires_of (gate_at self.now.records.now slot.0)) operand 0)) (later self.now.records.now self.now.work.now self.now.extent slot.0))) }
    {
        nodes::beside(self.work, 0, self.extent, 3 * slot.0 + operand)
    }

    // The first gate on a wire.
    pub fn first_on(&self, wire: Wire) -> Option<Slot>
        requires { wire.0 < self.now.extent.wires }
        ensures { result ≡ found (slot_of (cut (touches wire.0) (held self.now.records.now self.now.work.now self.now.extent))) }
    {
        let k = self.extent;
        nodes::beside(self.work, 0, k, 3 * k.gates + wire.0 as usize)
    }

    // The partner of a cnot, cz, ccx or ccz: the next gate that is equal to it.
    pub fn partner(&self, slot: Slot) -> Option<Slot>
        requires slot_live { is_live self.now.work.now self.now.extent slot.0 ≡ true }
        requires a_pair { is_pair (gate_at self.now.records.now slot.0) ≡ true }
        ensures { result ≡ found (slot_of (cut (equal (gate_at self.now.records.now slot.0)) (later self.now.records.now self.now.work.now self.now.extent slot.0))) }
    {
        let node = self.work[self.extent.pairs_at() + slot.0 + 1] as usize;
        if node == 0 {
            None
        } else {
            Some(Slot(node - 1))
        }
    }
}
