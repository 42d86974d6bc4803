// Questions about the live list; nothing that is lent is changed.
#![tactic(auto)]

pub mod linked;
pub mod loaded;

ghost use Rattle.std.specs.Prelude.{◌≡◌, ◌+◌, ◌*◌, ◌≤◌, ◌<◌, length, get_or};
ghost use Rattle.gates.specs.Gates.{wires_of};
ghost use Rattle.gates.specs.Records.{kind_of, record_at, gate_of};
ghost use Rattle.slots.specs.Slots.{gate_at};

use gates::{Gate, Wire, words};
use slots::Slot;

// The gate in a slot; of bytes that are none, which no slot in use has, some gate.
pub fn gate_at(records: &[u8], slot: Slot) -> Gate
    requires slot_in_bounds { 16 * slot.0 + 16 ≤ length records.now }
    requires slot_bound { slot.0 < 1048576 }
    ensures { result ≡ gate_at records.now slot.0 }
{
    Gate::try_from(slot.record(records)).unwrap_or(Gate::X(Wire(0)))
}

// The kind of the gate in a slot.
pub fn kind_at(records: &[u8], slot: Slot) -> u8
    requires slot_in_bounds { 16 * slot.0 + 16 ≤ length records.now }
    requires a_gate { gate_of (record_at records.now slot.0) ≡ Ok (gate_at records.now slot.0) }
    ensures { result ≡ kind_of (gate_at records.now slot.0) }
{
    records[16 * slot.0]
}

// The first wire of the gate in a slot.
pub fn wire_at(records: &[u8], slot: Slot) -> Wire
    requires slot_in_bounds { 16 * slot.0 + 16 ≤ length records.now }
    requires a_gate { gate_of (record_at records.now slot.0) ≡ Ok (gate_at records.now slot.0) }
    ensures { result.0 ≡ get_or (wires_of (gate_at records.now slot.0)) 0 0 }
{
    Wire(words::word_at(records, 16 * slot.0 + 4))
}
