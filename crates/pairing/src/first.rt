// The first pair sweep: a list is loaded gate by gate, and a gate whose blocker is its equal takes it away instead.
ghost use Rattle.std.specs.Prelude.{◌≡◌, ℕ, ◌+◌, ◌*◌, ◌≤◌, ◌<◌, length, drop};
ghost use Rattle.gates.specs.Gates.{All};
ghost use Rattle.gates.specs.Records.{record_at};
ghost use Rattle.rules.specs.Equal.{seven};
ghost use Rattle.rules.specs.Steps.{Cell};
ghost use Rattle.rules.specs.Sweeps.{pair_sweep};
ghost use Rattle.links.specs.Words.{Within};
ghost use Rattle.slots.specs.Slots.{gate_at, Sound, slot_of, found};
ghost use Rattle.slots.specs.Live.{InLimits, words_for, held, earlier, Loaded};
ghost use Rattle.live.specs.Filling.{whole_list};
ghost use Rattle.journal.specs.Sweeping.{Did, Went};
ghost use Rattle.pairing.specs.Ahead.{equal_blocker, load_ahead};

use asking::loaded::LoadedList;
use gates::{Position, records};
use journal::StepKind;
use leaves::equal;
use live::load;
use slots::{Extent, Slot};

// The blocker of a gate that comes after all that is loaded, if the two are equal and cancel.
fn equal_last(loaded: &LoadedList, list: &[u8], place: Position) -> Option<Slot>
    requires { (16 * place.0 + 16 ≤ length list.now) × Sound loaded.now.extent.wires (record_at list.now place.0) }
    ensures { result ≡ found (slot_of (equal_blocker (gate_at list.now place.0) (earlier loaded.now.records.now loaded.now.work.now loaded.now.extent loaded.now.extent.gates))) }
{
    let r = records::record_at(list, place);
    if equal::kind_cancels(r.kind) {
        let blocker = loaded.blocker_of_next(list, place)?;
        if equal::records_equal(blocker.record(loaded.records), r) {
            return Some(blocker);
        }
    }
    None
}

// One turn of the sweep: the gate at a place is loaded into the slot of that number, or its equal blocker goes. Two gates have
// gone for each step, so the gates that are left need not be counted.
fn load_gate(
    records: &mut [u8],
    work: &mut [u32],
    journal: &mut [u8],
    k: Extent,
    list: &[u8],
    place: Position,
    steps: usize,
) -> usize
    requires loaded { Loaded records.old work.old k }
    requires sound { (place.0 < k.gates) × (16 * k.gates ≤ length list.now) × Sound k.wires (record_at list.now place.0) }
    requires below { All (λ (e : Cell ℕ). e.beside < place.0) (held records.old work.old k) × (length (held records.old work.old k) + 2 * steps ≡ place.0) }
    requires room { 16 * (steps + length (load_ahead records.old work.old k list.now place.0).steps) ≤ length journal.old }
    ensures loaded { Loaded records.new work.new k }
    ensures below { All (λ (e : Cell ℕ). e.beside < place.0 + 1) (held records.new work.new k) × (length (held records.new work.new k) + 2 * result ≡ place.0 + 1) }
    ensures went { Went (load_ahead records.old work.old k list.now place.0) (load_ahead records.new work.new k list.now (place.0 + 1)) 0 steps result journal.old journal.new }
    ensures within { Within 0 (words_for k) work.old work.new }
    ensures past { drop (16 * k.gates) records.new ≡ drop (16 * k.gates) records.old }
{
    let loaded = LoadedList {
        records,
        work,
        extent: k,
    };
    if let Some(blocker) = equal_last(&loaded, list, place) {
        let first = loaded.position(blocker);
        let last = Position(place.0 - 2 * (steps as u32));
        journal::put_step(journal, steps, StepKind::Pair.number(), first, last);
        load::pop(records, work, k, blocker);
        return steps + 1;
    }
    load::push(records, work, k, Slot(place.0 as usize), list, place);
    steps
}

// Loads a list and sweeps it for pairs on the way. Answers how many steps the journal then has.
pub fn load_pairs(
    records: &mut [u8],
    work: &mut [u32],
    journal: &mut [u8],
    k: Extent,
    list: &[u8],
) -> usize
    requires limits { InLimits k }
    requires room { (16 * k.gates ≤ length records.old) × (words_for k ≤ length work.old) × (16 * k.gates ≤ length list.now) }
    requires sound { (i : ℕ) → i < k.gates → Sound k.wires (record_at list.now i) }
    requires journal_room { 16 * length (pair_sweep seven (whole_list list.now k.gates)).steps ≤ length journal.old }
    ensures loaded { Loaded records.new work.new k }
    ensures did { Did (pair_sweep seven (whole_list list.now k.gates)) (held records.new work.new k) 0 result journal.old journal.new }
    ensures within { Within 0 (words_for k) work.old work.new }
    ensures past { drop (16 * k.gates) records.new ≡ drop (16 * k.gates) records.old }
{
    load::begin(records, work, k);
    let mut steps = 0;
    for i in 0..k.gates {
        steps = load_gate(records, work, journal, k, list, Position(i as u32), steps);
    }
    steps
}
