// Questions about a list that is loaded.
ghost use Rattle.std.specs.Prelude.{◌≡◌, true, ◌+◌, ◌*◌, ◌≤◌, ◌<◌, length, get_or};
ghost use Rattle.std.proofs.Math.Option.{some};
ghost use Rattle.gates.specs.Gates.{wires_of, touches, shares};
ghost use Rattle.gates.specs.Records.{record_at};
ghost use Rattle.rules.specs.Steps.{cut_at};
ghost use Rattle.rules.specs.Sweeps.{cut};
ghost use Rattle.slots.specs.Slots.{gate_at, Sound, slot_of, found};
ghost use Rattle.slots.specs.Live.{is_live, held, earlier, Loaded};

use gates::{Position, Wire, records};
use slots::{Extent, Slot, nodes};

// What is lent, and what it says while the list is loaded.
#[derive(Clone, Copy)]
pub struct LoadedList<'a> {
    pub records: &'a [u8],
    pub work: &'a [u32],
    pub extent: Extent,
    pub ghost loaded: { Loaded records.now work.now extent },
}

impl<'a> LoadedList<'a> {
    // Whether a slot is live.
    pub fn is_live(&self, slot: Slot) -> bool
        requires { slot.0 < self.now.extent.gates }
        ensures { result ≡ is_live self.now.work.now self.now.extent slot.0 }
    {
        ranks::is_marked(self.work, self.extent.ranks_at(), self.extent.gates, slot.0)
    }

    // The latest gate before a slot on the wire of one of its operands.
    pub fn before_on(&self, slot: Slot, operand: usize) -> Option<Slot>
        requires slot_live { is_live self.now.work.now self.now.extent slot.0 ≡ true }
        requires of_gate { operand < length (wires_of (gate_at self.now.records.now slot.0)) }
        ensures { result ≡ found (slot_of (cut (touches (get_or (wires_of (gate_at self.now.records.now slot.0)) operand 0)) (earlier self.now.records.now self.now.work.now self.now.extent slot.0))) }
    {
        let k = self.extent;
        nodes::beside(self.work, k.prev_at(), k, 3 * slot.0 + operand)
    }

    // The last gate on a wire.
    pub fn last_on(&self, wire: Wire) -> Option<Slot>
        requires { wire.0 < self.now.extent.wires }
        ensures { result ≡ found (slot_of (cut (touches wire.0) (earlier self.now.records.now self.now.work.now self.now.extent self.now.extent.gates))) }
    {
        let k = self.extent;
        nodes::beside(self.work, k.prev_at(), k, 3 * k.gates + wire.0 as usize)
    }

    // The blocker of the gate in a slot: the latest gate before it on one of its wires.
    pub fn blocker(&self, slot: Slot) -> Option<Slot>
        requires { is_live self.now.work.now self.now.extent slot.0 ≡ true }
        ensures { result ≡ found (slot_of (cut (shares (gate_at self.now.records.now slot.0)) (earlier self.now.records.now self.now.work.now self.now.extent slot.0))) }
    {
        let count = nodes::operand_count(slot.record(self.records));
        let mut best = None;
        for op in 0..count {
            best = best.max(self.before_on(slot, op));
        }
        best
    }

    // The blocker of a gate that comes after all: the last gate on one of its wires.
    pub fn blocker_of_next(&self, list: &[u8], place: Position) -> Option<Slot>
        requires place_in_bounds { 16 * place.0 + 16 ≤ length list.now }
        requires sound { Sound self.now.extent.wires (record_at list.now place.0) }
        ensures { result ≡ found (slot_of (cut (shares (gate_at list.now place.0)) (earlier self.now.records.now self.now.work.now self.now.extent self.now.extent.gates))) }
    {
        let r = records::record_at(list, place);
        let count = nodes::operand_count(r);
        let mut best = None;
        for op in 0..count {
            best = best.max(self.last_on(Wire(nodes::operand(r, op))));
        }
        best
    }

    // The position of a live slot's gate in the list.
    pub fn position(&self, slot: Slot) -> Position
        requires { slot.0 < self.now.extent.gates }
        ensures { result.0 ≡ length (earlier self.now.records.now self.now.work.now self.now.extent slot.0) }
    {
        let k = self.extent;
        Position(ranks::position(self.work, k.ranks_at(), k.gates, slot.0))
    }

    // The slot of the gate at a position of the list.
    pub fn slot_at(&self, position: Position) -> Slot
        requires { position.0 < length (held self.now.records.now self.now.work.now self.now.extent) }
        ensures at_position { slot_of (cut_at position.0 (held self.now.records.now self.now.work.now self.now.extent)) ≡ some result.0 }
        ensures there { (is_live self.now.work.now self.now.extent result.0 ≡ true) × (result.0 < self.now.extent.gates) }
    {
        let k = self.extent;
        Slot(ranks::slot_at(self.work, k.ranks_at(), k.gates, position.0))
    }

    // The number of gates in the list.
    pub fn live_count(&self) -> usize
        ensures { result ≡ length (held self.now.records.now self.now.work.now self.now.extent) }
    {
        let k = self.extent;
        if k.gates == 0 {
            return 0;
        }
        ranks::position(self.work, k.ranks_at(), k.gates, k.gates) as usize
    }
}
