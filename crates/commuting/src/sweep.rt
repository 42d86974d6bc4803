// The commuting sweep over the live list.
ghost use Rattle.std.specs.Prelude.{◌≡◌, true, ◌+◌, ◌*◌, ◌-◌, ◌^◌, ◌≤◌, ◌<◌, length};
ghost use Rattle.rules.specs.Equal.{is_pair};
ghost use Rattle.rules.specs.Sweeps.{commuting_sweep};
ghost use Rattle.links.specs.Words.{Within};
ghost use Rattle.slots.specs.Slots.{gate_at};
ghost use Rattle.slots.specs.Live.{words_for, is_live, held, Live};
ghost use Rattle.journal.specs.Sweeping.{Did, Went};
ghost use Rattle.commuting.specs.Ahead.{commuting_ahead};

use crate::walk;
use crate::walk::Ending;
use asking::linked::LiveList;
use asking::loaded::LoadedList;
use journal::StepKind;
use leaves::pairs;
use slots::{Extent, Slot};

// The steps of the journal so far, and the gates that walks looked at.
#[derive(Clone, Copy, PartialEq, Eq)]
pub struct Swept {
    pub steps: usize,
    pub looks: u64,
}

// A pair and its partner go, if every gate between may pass.
fn try_partner(
    records: &[u8],
    work: &mut [u32],
    journal: &mut [u8],
    k: Extent,
    slot: Slot,
    swept: Swept,
) -> Swept
    requires live { Live records.now work.old k }
    requires live_pair { (is_live work.old k slot.0 ≡ true) × (is_pair (gate_at records.now slot.0) ≡ true) }
    requires room { 16 * (swept.steps + length (commuting_ahead records.now work.old k slot.0).steps) ≤ length journal.old }
    requires few_looks { swept.looks + (commuting_ahead records.now work.old k slot.0).looks < 2 ^ 64 }
    ensures live { Live records.now work.new k }
    ensures went { Went (commuting_ahead records.now work.old k slot.0) (commuting_ahead records.now work.new k (slot.0 + 1)) (result.looks - swept.looks) swept.steps result.steps journal.old journal.new }
    ensures more { swept.looks ≤ result.looks }
    ensures within { Within 0 (words_for k) work.old work.new }
{
    let Some(pair) = pairs::pair_of(asking::gate_at(records, slot)) else {
        return swept;
    };
    let list = LiveList {
        records,
        work,
        extent: k,
    };
    let Some(other) = list.partner(slot) else {
        return swept;
    };
    let walked = walk::walk_past(&list, slot, other, pair);
    let looks = swept.looks + walked.looks;
    match walked.ending {
        Ending::Blocked => Swept {
            steps: swept.steps,
            looks,
        },
        Ending::Reached => {
            let kind = StepKind::Commuting.number();
            journal::take_pair(records, work, journal, k, kind, slot, other, swept.steps);
            Swept {
                steps: swept.steps + 1,
                looks,
            }
        }
    }
}

// One turn of the sweep.
fn cancel_at(
    records: &[u8],
    work: &mut [u32],
    journal: &mut [u8],
    k: Extent,
    slot: Slot,
    swept: Swept,
) -> Swept
    requires live { Live records.now work.old k }
    requires slot_there { slot.0 < k.gates }
    requires room { 16 * (swept.steps + length (commuting_ahead records.now work.old k slot.0).steps) ≤ length journal.old }
    requires few_looks { swept.looks + (commuting_ahead records.now work.old k slot.0).looks < 2 ^ 64 }
    ensures live { Live records.now work.new k }
    ensures went { Went (commuting_ahead records.now work.old k slot.0) (commuting_ahead records.now work.new k (slot.0 + 1)) (result.looks - swept.looks) swept.steps result.steps journal.old journal.new }
    ensures more { swept.looks ≤ result.looks }
    ensures within { Within 0 (words_for k) work.old work.new }
{
    let loaded = LoadedList {
        records,
        work,
        extent: k,
    };
    if loaded.is_live(slot) {
        let kind = asking::kind_at(records, slot);
        if (8 <= kind) & (kind <= 11) {
            return try_partner(records, work, journal, k, slot, swept);
        }
    }
    swept
}

// Goes over the pairs of the live list in order. Answers how many steps the journal then has, and the looks of the walks.
pub fn cancel_commuting_pairs(
    records: &[u8],
    work: &mut [u32],
    journal: &mut [u8],
    k: Extent,
    steps: usize,
) -> Swept
    requires live { Live records.now work.old k }
    requires room { 16 * (steps + length (commuting_sweep (held records.now work.old k)).steps) ≤ length journal.old }
    requires few_looks { (commuting_sweep (held records.now work.old k)).looks < 2 ^ 64 }
    ensures live { Live records.now work.new k }
    ensures did { Did (commuting_sweep (held records.now work.old k)) (held records.now work.new k) steps result.steps journal.old journal.new }
    ensures looked { result.looks ≡ (commuting_sweep (held records.now work.old k)).looks }
    ensures within { Within 0 (words_for k) work.old work.new }
{
    let mut swept = Swept { steps, looks: 0 };
    for i in 0..k.gates {
        swept = cancel_at(records, work, journal, k, Slot(i), swept);
    }
    swept
}
