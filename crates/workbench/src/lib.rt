// The live list for Rust: each function is one of `asking` or `live` under a C name, for bench/ and its comparison, with an extent
// and a list in the parts that C has. No boundary for users: what is asked here the caller has to meet (docs/DECISIONS.md, 41); the
// entries of `stridebank` ask nothing.
#![tactic(auto)]

ghost use Rattle.std.specs.Prelude.{◌≡◌, true, ℕ, ◌*◌, ◌≤◌, ◌<◌, length, drop};
ghost use Rattle.std.proofs.Math.Option.{some};
ghost use Rattle.gates.specs.Records.{record_at};
ghost use Rattle.rules.specs.Steps.{cut_at};
ghost use Rattle.links.specs.Words.{Within};
ghost use Rattle.slots.specs.Slots.{Sound, slot_of, left_out};
ghost use Rattle.slots.specs.Live.{words_for, is_live, held, earlier, Loaded, Live};
ghost use Rattle.live.specs.Filling.{whole_list};
ghost use Rattle.live.specs.Finished.{records_left, words_left};

use asking::loaded::LoadedList;
use gates::Position;
use live::{change, finish, load};
use slots::{Extent, Slot};

// Loads a checked list.
#[unsafe(no_mangle)]
pub extern "C" fn live_load(
    records: &mut [u8],
    work: &mut [u32],
    gates: usize,
    wires: usize,
    list: &[u8],
)
    requires room { (gates ≤ 1048576) × (wires ≤ 65536) × (16 * gates ≤ length records.old) × (words_for (record { gates = gates; wires = wires }) ≤ length work.old) × (16 * gates ≤ length list.now) }
    requires sound { (i : ℕ) → i < gates → Sound wires (record_at list.now i) }
    ensures loaded { Loaded records.new work.new (record { gates = gates; wires = wires }) }
    ensures whole { held records.new work.new (record { gates = gates; wires = wires }) ≡ whole_list list.now gates }
    ensures within { Within 0 (words_for (record { gates = gates; wires = wires })) work.old work.new }
    ensures past { drop (16 * gates) records.new ≡ drop (16 * gates) records.old }
{
    let k = Extent { gates, wires };
    load::load_all(records, work, k, list);
}

// Links what is loaded.
#[unsafe(no_mangle)]
pub extern "C" fn live_link(records: &[u8], work: &mut [u32], gates: usize, wires: usize)
    requires { Loaded records.now work.old (record { gates = gates; wires = wires }) }
    ensures live { Live records.now work.new (record { gates = gates; wires = wires }) }
    ensures held { held records.now work.new (record { gates = gates; wires = wires }) ≡ held records.now work.old (record { gates = gates; wires = wires }) }
    ensures within { Within 0 (words_for (record { gates = gates; wires = wires })) work.old work.new }
{
    let k = Extent { gates, wires };
    load::link(records, work, k);
}

// The position of a slot.
#[unsafe(no_mangle)]
pub extern "C" fn live_position(
    records: &[u8],
    work: &[u32],
    gates: usize,
    wires: usize,
    slot: usize,
) -> u32
    requires loaded { Loaded records.now work.now (record { gates = gates; wires = wires }) }
    requires slot_in_list { slot < gates }
    ensures { result ≡ length (earlier records.now work.now (record { gates = gates; wires = wires }) slot) }
{
    let loaded = LoadedList {
        records,
        work,
        extent: Extent { gates, wires },
    };
    loaded.position(Slot(slot)).0
}

// The slot at a position.
#[unsafe(no_mangle)]
pub extern "C" fn live_slot_at(
    records: &[u8],
    work: &[u32],
    gates: usize,
    wires: usize,
    position: u32,
) -> usize
    requires loaded { Loaded records.now work.now (record { gates = gates; wires = wires }) }
    requires position_in_list { position < length (held records.now work.now (record { gates = gates; wires = wires })) }
    ensures at_position { slot_of (cut_at position (held records.now work.now (record { gates = gates; wires = wires }))) ≡ some result }
    ensures there { (is_live work.now (record { gates = gates; wires = wires }) result ≡ true) × (result < gates) }
{
    let loaded = LoadedList {
        records,
        work,
        extent: Extent { gates, wires },
    };
    loaded.slot_at(Position(position)).0
}

// Takes a gate out of the list.
#[unsafe(no_mangle)]
pub extern "C" fn live_drop(
    records: &[u8],
    work: &mut [u32],
    gates: usize,
    wires: usize,
    slot: usize,
)
    requires linked { Live records.now work.old (record { gates = gates; wires = wires }) }
    requires slot_live { is_live work.old (record { gates = gates; wires = wires }) slot ≡ true }
    ensures live { Live records.now work.new (record { gates = gates; wires = wires }) }
    ensures dropped { held records.now work.new (record { gates = gates; wires = wires }) ≡ left_out slot (held records.now work.old (record { gates = gates; wires = wires })) }
    ensures within { Within 0 (words_for (record { gates = gates; wires = wires })) work.old work.new }
{
    let k = Extent { gates, wires };
    change::drop_slot(records, work, k, Slot(slot));
}

// Moves what is left to the front and zeroes the rest.
#[unsafe(no_mangle)]
pub extern "C" fn live_finish(
    records: &mut [u8],
    work: &mut [u32],
    gates: usize,
    wires: usize,
) -> usize
    requires { Loaded records.old work.old (record { gates = gates; wires = wires }) }
    ensures left { result ≡ length (held records.old work.old (record { gates = gates; wires = wires })) }
    ensures records { records.new ≡ records_left records.old work.old (record { gates = gates; wires = wires }) }
    ensures work { work.new ≡ words_left work.old (record { gates = gates; wires = wires }) }
{
    let k = Extent { gates, wires };
    finish::finish(records, work, k)
}
