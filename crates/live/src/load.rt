// Loading: gates are pushed one after another, each wire a stack; then all is linked once.
ghost use Rattle.std.specs.Prelude.{◌≡◌, true, not, [], ◌∷◌, ◌++◌, ℕ, ◌+◌, ◌*◌, ◌≤◌, ◌<◌, length, drop};
ghost use Rattle.gates.specs.Gates.{shares, All};
ghost use Rattle.gates.specs.Records.{record_at, record_bytes};
ghost use Rattle.std.proofs.lemmas.List.Edits.{sets};
ghost use Rattle.rules.specs.Steps.{Cell, all};
ghost use Rattle.links.specs.Words.{Within};
ghost use Rattle.slots.specs.Slots.{gate_at, Sound, left_out};
ghost use Rattle.slots.specs.Live.{InLimits, words_for, nodes_for, is_live, held, later, Loaded, Forward, Live};
ghost use Rattle.live.specs.Filling.{FilledTo, whole_list};

use gates::{Position, records};
use slots::{Extent, Slot, nodes};

// Starts with an empty list.
pub fn begin(records: &[u8], work: &mut [u32], k: Extent)
    requires limits { InLimits k }
    requires room { (16 * k.gates ≤ length records.now) × (words_for k ≤ length work.old) }
    ensures loaded { Loaded records.now work.new k }
    ensures empty { held records.now work.new k ≡ [] }
    ensures within { Within 0 (words_for k) work.old work.new }
{
    let prev = k.prev_at();
    let marks = k.ranks_at();
    nodes::close_ends(work, prev, k);
    if 0 < k.gates {
        ranks::start(work, marks, k.gates);
    }
}

// Puts a gate of a list behind all others, into a slot past theirs.
pub fn push(
    records: &mut [u8],
    work: &mut [u32],
    k: Extent,
    slot: Slot,
    list: &[u8],
    place: Position,
)
    requires loaded { Loaded records.old work.old k }
    requires slot_past_all { (slot.0 < k.gates) × All (λ (e : Cell ℕ). e.beside < slot.0) (held records.old work.old k) }
    requires sound { (16 * place.0 + 16 ≤ length list.now) × Sound k.wires (record_at list.now place.0) }
    ensures loaded { Loaded records.new work.new k }
    ensures pushed { held records.new work.new k ≡ held records.old work.old k ++ (record { gate = gate_at list.now place.0; beside = slot.0 } ∷ []) }
    ensures record { records.new ≡ sets records.old (16 * slot.0) (record_bytes (record_at list.now place.0)) }
    ensures within { Within 0 (words_for k) work.old work.new }
{
    let r = records::record_at(list, place);
    records::put_record(records, Position(slot.0 as u32), r);
    let prev = k.prev_at();
    nodes::hang(work, prev, k, r, slot.0);
    ranks::put_in(work, k.ranks_at(), k.gates, slot.0);
}

// Takes away a gate that is the last on all its wires.
pub fn pop(records: &[u8], work: &mut [u32], k: Extent, slot: Slot)
    requires loaded { Loaded records.now work.old k }
    requires slot_live { is_live work.old k slot.0 ≡ true }
    requires last_on_all { all (λ g. not (shares (gate_at records.now slot.0) g)) (later records.now work.old k slot.0) ≡ true }
    ensures loaded { Loaded records.now work.new k }
    ensures popped { held records.now work.new k ≡ left_out slot.0 (held records.now work.old k) }
    ensures within { Within 0 (words_for k) work.old work.new }
{
    let prev = k.prev_at();
    nodes::take_off(work, prev, k, slot.record(records), slot.0);
    ranks::take_out(work, k.ranks_at(), k.gates, slot.0);
}

// Links a slot forward, if it is live.
fn fill_slot(records: &[u8], work: &mut [u32], k: Extent, slot: usize)
    requires loaded { Loaded records.now work.old k }
    requires filled_past { (slot < k.gates) × FilledTo records.now work.old k (slot + 1) }
    ensures filled { FilledTo records.now work.new k slot }
    ensures within { Within 0 (nodes_for k) work.old work.new }
{
    if ranks::is_marked(work, k.ranks_at(), k.gates, slot) {
        nodes::hang(work, 0, k, Slot(slot).record(records), slot);
    }
}

// Links every live slot forward, from the last down: each wire becomes a ring.
fn fill(records: &[u8], work: &mut [u32], k: Extent)
    requires { Loaded records.now work.old k }
    ensures rings { Forward records.now work.new k }
    ensures within { Within 0 (nodes_for k) work.old work.new }
{
    nodes::close_ends(work, 0, k);
    for slot in (0..k.gates).rev() {
        fill_slot(records, work, k, slot);
    }
}

// Links what is loaded: equal pairs, and each wire to a ring.
pub fn link(records: &[u8], work: &mut [u32], k: Extent)
    requires { Loaded records.now work.old k }
    ensures live { Live records.now work.new k }
    ensures held { held records.now work.new k ≡ held records.now work.old k }
    ensures within { Within 0 (words_for k) work.old work.new }
{
    partners::pair_up(records, work, k);
    fill(records, work, k);
}

// Loads all gates of a list.
pub fn load_all(records: &mut [u8], work: &mut [u32], k: Extent, list: &[u8])
    requires limits { InLimits k }
    requires room { (16 * k.gates ≤ length records.old) × (words_for k ≤ length work.old) × (16 * k.gates ≤ length list.now) }
    requires sound { (i : ℕ) → i < k.gates → Sound k.wires (record_at list.now i) }
    ensures loaded { Loaded records.new work.new k }
    ensures whole { held records.new work.new k ≡ whole_list list.now k.gates }
    ensures within { Within 0 (words_for k) work.old work.new }
    ensures past { drop (16 * k.gates) records.new ≡ drop (16 * k.gates) records.old }
{
    begin(records, work, k);
    for i in 0..k.gates {
        let place = Position(i as u32);
        push(records, work, k, Slot(i), list, place);
    }
}
