// The journal: steps written into lent bytes, and the step that takes two gates out of the list. What is lent, and the number of
// steps so far, go in and out apart: document 01, "separate lent slices".
#![tactic(auto)]

ghost use Rattle.std.specs.Prelude.{◌≡◌, true, ◌+◌, ◌*◌, ◌≤◌, ◌<◌, length};
ghost use Rattle.std.proofs.lemmas.List.Edits.{sets};
ghost use Rattle.rules.specs.Steps.{step};
ghost use Rattle.rules.specs.Journal.{step_bytes};
ghost use Rattle.links.specs.Words.{Within};
ghost use Rattle.slots.specs.Live.{spare_at, is_live, earlier, Live};
ghost use Rattle.journal.specs.Kinds.{number_in};
ghost use Rattle.journal.specs.Sweeping.{TakenOut};

use asking::loaded::LoadedList;
use gates::{Position, words};
use live::change;
use slots::{Extent, Slot};

// The kinds of steps, by the sweep that writes them.
#[derive(Clone, Copy, PartialEq, Eq)]
pub enum StepKind {
    Pair = 1,
    Commuting = 2,
    Hadamard = 3,
}

impl StepKind {
    // Document 01's number.
    pub fn number(self) -> u32
        ensures { result ≡ number_in self }
    {
        self as u32
    }
}

// Writes a step behind so many others. The kind is a number, since what is promised holds of every number.
pub fn put_step(journal: &mut [u8], others: usize, kind: u32, first: Position, last: Position)
    requires { 16 * others + 16 ≤ length journal.old }
    ensures { journal.new ≡ sets journal.old (16 * others) (step_bytes (step kind first.0 last.0)) }
{
    let at = 16 * others;
    words::put_word(journal, at, kind);
    words::put_word(journal, at + 4, first.0);
    words::put_word(journal, at + 8, last.0);
    words::put_word(journal, at + 12, 0);
}

// Takes two gates out of the list and writes the step that does it, of a kind (any number, as in `put_step`), behind so many
// others.
pub fn take_pair(
    records: &[u8],
    work: &mut [u32],
    journal: &mut [u8],
    k: Extent,
    kind: u32,
    first: Slot,
    last: Slot,
    others: usize,
)
    requires live { Live records.now work.old k }
    requires both_live { (is_live work.old k first.0 ≡ true) × (is_live work.old k last.0 ≡ true) × (first.0 < last.0) }
    requires room { 16 * others + 16 ≤ length journal.old }
    ensures live { Live records.now work.new k }
    ensures taken { TakenOut k first.0 last.0 work.old work.new }
    ensures within { Within 0 (spare_at k) work.old work.new }
    ensures journal { journal.new ≡ sets journal.old (16 * others) (step_bytes (step kind (length (earlier records.now work.old k first.0)) (length (earlier records.now work.old k last.0)))) }
{
    let list = LoadedList {
        records,
        work,
        extent: k,
    };
    let from = list.position(first);
    let to = list.position(last);
    put_step(journal, others, kind, from, to);
    change::drop_slot(records, work, k, first);
    change::drop_slot(records, work, k, last);
}
