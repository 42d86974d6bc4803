// Sweeps again until nothing changes, and rounds of them. The lent slices go apart: document 01, "separate lent slices".
ghost use Rattle.std.specs.Prelude.{◌≡◌, Bool, true, false, cond, ℕ, ◌+◌, ◌*◌, ◌^◌, ◌≤◌, ◌<◌, length, drop};
ghost use Rattle.rules.specs.Equal.{seven};
ghost use Rattle.rules.specs.Sweeps.{Sweep, hadamard_sweep, commuting_sweep};
ghost use Rattle.rules.specs.Loop.{repeated, round};
ghost use Rattle.rules.proofs.Replays.{Replays, hadamard-replays, commuting-replays, round-replays};
ghost use Rattle.links.specs.Words.{Within};
ghost use Rattle.slots.specs.Live.{words_for, held, Live};
ghost use Rattle.journal.specs.Sweeping.{Did};

use commuting::sweep;
use commuting::sweep::Swept;
use hadamards::firing;
use pairing::later;
use slots::Extent;

// A sweep over the live list: what it does on so many wires, whether it only reads the records, and that its steps lead there.
trait Sweeps {
    ghost does: { ℕ → Sweep ℕ };

    ghost only_reads: { Bool };

    fn sweep(
        records: &mut [u8],
        work: &mut [u32],
        journal: &mut [u8],
        k: Extent,
        steps: usize,
    ) -> Swept
        requires live { Live records.old work.old k }
        requires room { (0 < k.gates) × (16 * (steps + length (does k.wires (held records.old work.old k)).steps) ≤ length journal.old) }
        requires few_looks { (does k.wires (held records.old work.old k)).looks < 2 ^ 64 }
        ensures live { Live records.new work.new k }
        ensures did { Did (does k.wires (held records.old work.old k)) (held records.new work.new k) steps result.steps journal.old journal.new }
        ensures looked { result.looks ≡ (does k.wires (held records.old work.old k)).looks }
        ensures within { Within 0 (words_for k) work.old work.new }
        ensures past { drop (cond only_reads 0 (16 * k.gates)) records.new ≡ drop (cond only_reads 0 (16 * k.gates)) records.old };

    ghost replays: { (n : ℕ) → Replays seven (does n) };
}

// A sweep until nothing changes.
fn repeat<S: Sweeps>(
    records: &mut [u8],
    work: &mut [u32],
    journal: &mut [u8],
    k: Extent,
    steps: usize,
) -> Swept
    requires live { Live records.old work.old k }
    requires room { (0 < k.gates) × (16 * (steps + length (repeated (S.does k.wires) (held records.old work.old k)).steps) ≤ length journal.old) }
    requires few_looks { (repeated (S.does k.wires) (held records.old work.old k)).looks < 2 ^ 64 }
    ensures live { Live records.new work.new k }
    ensures did { Did (repeated (S.does k.wires) (held records.old work.old k)) (held records.new work.new k) steps result.steps journal.old journal.new }
    ensures looked { result.looks ≡ (repeated (S.does k.wires) (held records.old work.old k)).looks }
    ensures within { Within 0 (words_for k) work.old work.new }
    ensures past { drop (cond S.only_reads 0 (16 * k.gates)) records.new ≡ drop (cond S.only_reads 0 (16 * k.gates)) records.old }
{
    let mut s = steps;
    let mut looks: u64 = 0;
    loop {
        let swept = S::sweep(records, work, journal, k, s);
        looks += swept.looks;
        if swept.steps == s {
            return Swept { steps: s, looks };
        }
        s = swept.steps;
    }
}

struct Hadamards;

impl Sweeps for Hadamards {
    ghost does = { λ n. hadamard_sweep n };

    ghost only_reads = { false };

    ghost replays = { λ n. hadamard-replays seven n };

    fn sweep(
        records: &mut [u8],
        work: &mut [u32],
        journal: &mut [u8],
        k: Extent,
        steps: usize,
    ) -> Swept {
        Swept {
            steps: firing::reduce_hadamards(records, work, journal, k, steps),
            looks: 0,
        }
    }
}

struct Commuting;

impl Sweeps for Commuting {
    ghost does = { λ n. commuting_sweep };

    ghost only_reads = { true };

    ghost replays = { λ n. commuting-replays seven };

    fn sweep(
        records: &mut [u8],
        work: &mut [u32],
        journal: &mut [u8],
        k: Extent,
        steps: usize,
    ) -> Swept {
        sweep::cancel_commuting_pairs(records, work, journal, k, steps)
    }
}

// One round: Hadamard, commuting, pair.
struct Round;

impl Sweeps for Round {
    ghost does = { λ n. round seven n };

    ghost only_reads = { false };

    ghost replays = { λ n. round-replays seven n };

    fn sweep(
        records: &mut [u8],
        work: &mut [u32],
        journal: &mut [u8],
        k: Extent,
        steps: usize,
    ) -> Swept {
        let reduced = repeat::<Hadamards>(records, work, journal, k, steps);
        let swept = repeat::<Commuting>(records, work, journal, k, reduced.steps);
        Swept {
            steps: later::cancel_pairs(records, work, journal, k, swept.steps),
            looks: swept.looks,
        }
    }
}

// The rounds of the pass. A list of no gates has none, and its words leave no room for a scan's notes.
pub fn all_rounds(
    records: &mut [u8],
    work: &mut [u32],
    journal: &mut [u8],
    k: Extent,
    steps: usize,
) -> Swept
    requires live { Live records.old work.old k }
    requires room { 16 * (steps + length (repeated (round seven k.wires) (held records.old work.old k)).steps) ≤ length journal.old }
    requires few_looks { (repeated (round seven k.wires) (held records.old work.old k)).looks < 2 ^ 64 }
    ensures live { Live records.new work.new k }
    ensures did { Did (repeated (round seven k.wires) (held records.old work.old k)) (held records.new work.new k) steps result.steps journal.old journal.new }
    ensures looked { result.looks ≡ (repeated (round seven k.wires) (held records.old work.old k)).looks }
    ensures within { Within 0 (words_for k) work.old work.new }
    ensures past { drop (16 * k.gates) records.new ≡ drop (16 * k.gates) records.old }
{
    if k.gates == 0 {
        return Swept { steps, looks: 0 };
    }
    repeat::<Round>(records, work, journal, k, steps)
}
