// The pair sweep over the live list.
ghost use Rattle.std.specs.Prelude.{◌≡◌, true, ◌+◌, ◌*◌, ◌≤◌, ◌<◌, length};
ghost use Rattle.rules.specs.Equal.{seven};
ghost use Rattle.rules.specs.Sweeps.{pair_sweep};
ghost use Rattle.links.specs.Words.{Within};
ghost use Rattle.slots.specs.Slots.{gate_at, slot_of, found};
ghost use Rattle.slots.specs.Live.{words_for, is_live, held, earlier, Live};
ghost use Rattle.journal.specs.Sweeping.{Did, Went};
ghost use Rattle.pairing.specs.Ahead.{equal_blocker, pairs_ahead};

use asking::loaded::LoadedList;
use journal::StepKind;
use leaves::equal;
use slots::{Extent, Slot};

// The blocker of the gate in a slot, if the two are equal and cancel.
fn equal_blocker(loaded: &LoadedList, slot: Slot) -> Option<Slot>
    requires { is_live loaded.now.work.now loaded.now.extent slot.0 ≡ true }
    ensures { result ≡ found (slot_of (equal_blocker (gate_at loaded.now.records.now slot.0) (earlier loaded.now.records.now loaded.now.work.now loaded.now.extent slot.0))) }
{
    let r = slot.record(loaded.records);
    if equal::kind_cancels(r.kind) {
        let blocker = loaded.blocker(slot)?;
        if equal::records_equal(blocker.record(loaded.records), r) {
            return Some(blocker);
        }
    }
    None
}

// One turn of the sweep: a live gate and its blocker go, if they are equal and cancel.
fn cancel_at(
    records: &[u8],
    work: &mut [u32],
    journal: &mut [u8],
    k: Extent,
    slot: Slot,
    steps: usize,
) -> usize
    requires live { Live records.now work.old k }
    requires room { (slot.0 < k.gates) × (16 * (steps + length (pairs_ahead records.now work.old k slot.0).steps) ≤ length journal.old) }
    ensures live { Live records.now work.new k }
    ensures went { Went (pairs_ahead records.now work.old k slot.0) (pairs_ahead records.now work.new k (slot.0 + 1)) 0 steps result journal.old journal.new }
    ensures within { Within 0 (words_for k) work.old work.new }
{
    let loaded = LoadedList {
        records,
        work,
        extent: k,
    };
    if loaded.is_live(slot) {
        if let Some(blocker) = equal_blocker(&loaded, slot) {
            let kind = StepKind::Pair.number();
            journal::take_pair(records, work, journal, k, kind, blocker, slot, steps);
            return steps + 1;
        }
    }
    steps
}

// Goes forward over the live list; equal neighbours that cancel go. Answers how many steps the journal then has.
pub fn cancel_pairs(
    records: &[u8],
    work: &mut [u32],
    journal: &mut [u8],
    k: Extent,
    steps: usize,
) -> usize
    requires live { Live records.now work.old k }
    requires room { 16 * (steps + length (pair_sweep seven (held records.now work.old k)).steps) ≤ length journal.old }
    ensures live { Live records.now work.new k }
    ensures did { Did (pair_sweep seven (held records.now work.old k)) (held records.now work.new k) steps result journal.old journal.new }
    ensures within { Within 0 (words_for k) work.old work.new }
{
    let mut s = steps;
    for i in 0..k.gates {
        s = cancel_at(records, work, journal, k, Slot(i), s);
    }
    s
}
