// What an h opens on its wire: the h that closes, and what is put in place of the gates.
ghost use Rattle.std.specs.Prelude.{◌≡◌, true};
ghost use Rattle.std.proofs.Math.Option.{some};
ghost use Rattle.gates.specs.Gates.{wire};
ghost use Rattle.rules.specs.Runs.{is_h_on};
ghost use Rattle.slots.specs.Slots.{gate_at, found};
ghost use Rattle.slots.specs.Live.{is_live, later, Live};
ghost use Rattle.hadamards.specs.Firings.{Close, closing_of};
ghost use Rattle.hadamards.specs.Closings.{run_from, as_ran, as_close, closer_of, as_rewrite};

use asking::linked::LiveList;
use gates::{Gate, Wire};
use leaves::runs;
use slots::Slot;

// A run behind an h: the h that closes it, and its sum modulo 8.
#[derive(Clone, Copy, PartialEq, Eq)]
pub struct Run {
    pub closer: Slot,
    pub sum: u8,
}

// How an h is closed: by an x and an h, or by a run and an h.
#[derive(Clone, Copy, PartialEq, Eq)]
pub enum Closing {
    ByX(Slot),
    ByRun(Run),
}

// What is put in place of both h, and of the first gate between them; nothing where they go.
#[derive(Clone, Copy, PartialEq, Eq)]
pub struct Forms {
    pub ends: Option<Gate>,
    pub first: Option<Gate>,
}

// The run behind the h in a slot, if an h closes it. All its gates have one wire.
fn run_behind(list: &LiveList, slot: Slot, on: Wire) -> Option<Run>
    requires slot_live { is_live list.now.work.now list.now.extent slot.0 ≡ true }
    requires is_h { is_h_on on.0 (gate_at list.now.records.now slot.0) ≡ true }
    ensures { as_ran result ≡ run_from on.0 0 (later list.now.records.now list.now.work.now list.now.extent slot.0) }
{
    let mut at = slot;
    let mut sum: u8 = 0;
    loop {
        let next = list.after_on(at, 0)?;
        let kind = asking::kind_at(list.records, next);
        let Some(eighths) = runs::worth_of(kind) else {
            if kind == 1 {
                return Some(Run { closer: next, sum });
            }
            return None;
        };
        sum = (sum + eighths) % 8;
        at = next;
    }
}

// What the h in a slot opens.
pub fn opens(list: &LiveList, slot: Slot, on: Wire) -> Option<Closing>
    requires slot_live { is_live list.now.work.now list.now.extent slot.0 ≡ true }
    requires is_h { is_h_on on.0 (gate_at list.now.records.now slot.0) ≡ true }
    ensures { as_close (wire on.0) result ≡ closing_of on.0 (later list.now.records.now list.now.work.now list.now.extent slot.0) }
{
    let next = list.after_on(slot, 0)?;
    if asking::kind_at(list.records, next) == 0 {
        let then = list.after_on(next, 0)?;
        if asking::kind_at(list.records, then) == 1 {
            return Some(Closing::ByX(then));
        }
        return None;
    }
    let run = run_behind(list, slot, on)?;
    Some(Closing::ByRun(run))
}

// The slot of the h that closes, where the step is allowed: a run's sum is even.
#[tactic(auto, unfolding(rules::specs::Runs::by_eighths))]
pub fn closer_of(closing: Option<Closing>, on: Wire) -> Option<Slot>
    ensures { result ≡ found (closer_of (as_close on closing)) }
{
    match closing? {
        Closing::ByX(closer) => Some(closer),
        Closing::ByRun(run) => {
            if matches!(run.sum, 0 | 2 | 4 | 6) {
                Some(run.closer)
            } else {
                None
            }
        }
    }
}

// What is put in place of the gates.
#[tactic(auto, unfolding(rules::specs::Runs::by_eighths))]
pub fn forms_of(closing: Option<Closing>, on: Wire) -> Forms
    ensures { (c : Close) → as_close on closing ≡ some c → as_rewrite result ≡ c.rewrite }
{
    match closing {
        None => Forms {
            ends: None,
            first: None,
        },
        Some(Closing::ByX(_)) => Forms {
            ends: None,
            first: Some(Gate::Z(on)),
        },
        Some(Closing::ByRun(run)) => match run.sum {
            0 => Forms {
                ends: None,
                first: None,
            },
            4 => Forms {
                ends: None,
                first: Some(Gate::X(on)),
            },
            2 => Forms {
                ends: Some(Gate::Sdg(on)),
                first: Some(Gate::H(on)),
            },
            _ => Forms {
                ends: Some(Gate::S(on)),
                first: Some(Gate::H(on)),
            },
        },
    }
}
