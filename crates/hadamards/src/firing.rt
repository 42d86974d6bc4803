// Firings carried out, wire by wire: the step is written, and the gates are rewritten or go.
ghost use Rattle.std.specs.Prelude.{◌≡◌, true, ◌+◌, ◌*◌, ◌≤◌, ◌<◌, length, get_or, drop};
ghost use Rattle.std.proofs.Math.Option.{some};
ghost use Rattle.std.proofs.lemmas.List.Edits.{sets};
ghost use Rattle.gates.specs.declared.Gate.{Gate};
ghost use Rattle.gates.specs.Gates.{wires_of, touches};
ghost use Rattle.rules.specs.Runs.{Rewrite};
ghost use Rattle.rules.specs.Steps.{step};
ghost use Rattle.rules.specs.Journal.{step_bytes};
ghost use Rattle.rules.specs.Sweeps.{hadamards_from, hadamard_sweep};
ghost use Rattle.links.specs.Words.{Within};
ghost use Rattle.slots.specs.Slots.{gate_at};
ghost use Rattle.slots.specs.Live.{words_for, spare_at, is_live, held, earlier, later, Live};
ghost use Rattle.journal.specs.Sweeping.{Did};
ghost use Rattle.hadamards.specs.Firings.{firings, closing_of};
ghost use Rattle.hadamards.specs.Closings.{put_as};
ghost use Rattle.hadamards.specs.Chains.{ChainOf};
ghost use Rattle.hadamards.specs.Placing.{DroppedOn, OneWire, Placed, OtherWires, Allowed, PlacedBetween, Fired};

use crate::{closing, noting};
use asking::linked::LiveList;
use gates::{Gate, Wire};
use journal::StepKind;
use live::change;
use slots::{Extent, Slot};

// Drops the gates on a slot's first wire between it and another slot of that wire.
fn drop_between(records: &[u8], work: &mut [u32], k: Extent, from: Slot, to: Slot)
    requires live { Live records.now work.old k }
    requires on_one_wire { (is_live work.old k from.0 ≡ true) × (is_live work.old k to.0 ≡ true) × (from.0 < to.0) × (touches (get_or (wires_of (gate_at records.now from.0)) 0 0) (gate_at records.now to.0) ≡ true) }
    ensures live { Live records.now work.new k }
    ensures dropped { DroppedOn records.now k (get_or (wires_of (gate_at records.now from.0)) 0 0) from.0 to.0 work.old work.new }
    ensures within { Within 0 (spare_at k) work.old work.new }
{
    loop {
        let list = LiveList {
            records,
            work,
            extent: k,
        };
        match list.after_on(from, 0) {
            Some(next) if next != to => change::drop_slot(records, work, k, next),
            _ => return,
        }
    }
}

// Puts another gate of its wire in place of a gate of one wire, or drops it.
fn place(records: &mut [u8], work: &mut [u32], k: Extent, slot: Slot, on: Wire, put: Option<Gate>)
    requires live { Live records.old work.old k }
    requires slot_live { (is_live work.old k slot.0 ≡ true) × OneWire on.0 (gate_at records.old slot.0) }
    requires one_wire { (g : Gate) → put_as put ≡ some g → OneWire on.0 g }
    ensures live { Live records.new work.new k }
    ensures placed { Placed k slot.0 (put_as put) records.old work.old records.new work.new }
    ensures within { Within 0 (spare_at k) work.old work.new }
    ensures past { drop (16 * k.gates) records.new ≡ drop (16 * k.gates) records.old }
{
    match put {
        None => change::drop_slot(records, work, k, slot),
        Some(g) => change::rewrite(records, work, k, slot, g),
    }
}

// Of the gates between two h of a wire the first takes another, and the others go; or all go.
fn place_between(
    records: &mut [u8],
    work: &mut [u32],
    k: Extent,
    on: Wire,
    opener: Slot,
    closer: Slot,
    first: Option<Gate>,
)
    requires live { Live records.old work.old k }
    requires allowed { Allowed records.old work.old k on.0 (record { opener = opener.0; closer = closer.0 }) }
    requires first_of_rewrite { (r : Rewrite) → closing_of on.0 (later records.old work.old k opener.0) ≡ some (record { closer = closer.0; rewrite = r }) → put_as first ≡ r.first }
    ensures live { Live records.new work.new k }
    ensures placed { PlacedBetween k on.0 (record { opener = opener.0; closer = closer.0 }) (put_as first) records.old work.old records.new work.new }
    ensures within { Within 0 (spare_at k) work.old work.new }
    ensures past { drop (16 * k.gates) records.new ≡ drop (16 * k.gates) records.old }
{
    match first {
        None => drop_between(records, work, k, opener, closer),
        Some(_) => {
            let list = LiveList {
                records,
                work,
                extent: k,
            };
            if let Some(next) = list.after_on(opener, 0) {
                place(records, work, k, next, on, first);
                drop_between(records, work, k, next, closer);
            }
        }
    }
}

// Carries out one firing and writes its step behind so many others.
fn fire(
    records: &mut [u8],
    work: &mut [u32],
    journal: &mut [u8],
    k: Extent,
    on: Wire,
    opener: Slot,
    closer: Slot,
    others: usize,
)
    requires live { Live records.old work.old k }
    requires allowed { Allowed records.old work.old k on.0 (record { opener = opener.0; closer = closer.0 }) }
    requires room { 16 * others + 16 ≤ length journal.old }
    ensures live { Live records.new work.new k }
    ensures fired { (r : Rewrite) → closing_of on.0 (later records.old work.old k opener.0) ≡ some (record { closer = closer.0; rewrite = r }) → Fired k on.0 (record { opener = opener.0; closer = closer.0 }) r records.old work.old records.new work.new }
    ensures within { Within 0 (spare_at k) work.old work.new }
    ensures past { drop (16 * k.gates) records.new ≡ drop (16 * k.gates) records.old }
    ensures journal { journal.new ≡ sets journal.old (16 * others) (step_bytes (step 3 (length (earlier records.old work.old k opener.0)) (length (earlier records.old work.old k closer.0)))) }
{
    let list = LiveList {
        records,
        work,
        extent: k,
    };
    let forms = closing::forms_of(closing::opens(&list, opener, on), on);
    let loaded = list.loaded();
    let from = loaded.position(opener);
    let to = loaded.position(closer);
    journal::put_step(journal, others, StepKind::Hadamard.number(), from, to);
    place_between(records, work, k, on, opener, closer, forms.first);
    place(records, work, k, opener, on, forms.ends);
    place(records, work, k, closer, on, forms.ends);
}

// Carries out the firings of a wire in their order. Answers how many steps the journal then has.
fn fire_wire(
    records: &mut [u8],
    work: &mut [u32],
    journal: &mut [u8],
    k: Extent,
    on: Wire,
    steps: usize,
) -> usize
    requires live { Live records.old work.old k }
    requires chain { (0 < k.gates) × (on.0 < k.wires) × ChainOf work.old k on.0 (firings on.0 0 (held records.old work.old k)) }
    requires room { 16 * (steps + length (hadamards_from (length (held records.old work.old k)) on.0 0 (held records.old work.old k)).steps) ≤ length journal.old }
    ensures live { Live records.new work.new k }
    ensures did { Did (hadamards_from (length (held records.old work.old k)) on.0 0 (held records.old work.old k)) (held records.new work.new k) steps result journal.old journal.new }
    ensures others { OtherWires k on.0 records.old work.old records.new work.new }
    ensures within { Within 0 (spare_at k) work.old work.new }
    ensures past { drop (16 * k.gates) records.new ≡ drop (16 * k.gates) records.old }
{
    let nexts = k.spare_at();
    let openers = nexts + k.gates;
    let mut s = steps;
    let mut link = work[openers + k.gates + on.0 as usize] as usize;
    while link != 0 {
        let closer = link - 1;
        let opener = work[openers + closer] as usize;
        link = work[nexts + closer] as usize;
        fire(records, work, journal, k, on, Slot(opener), Slot(closer), s);
        s += 1;
    }
    s
}

// The Hadamard sweep, wire upwards. Answers how many steps the journal then has.
pub fn reduce_hadamards(
    records: &mut [u8],
    work: &mut [u32],
    journal: &mut [u8],
    k: Extent,
    steps: usize,
) -> usize
    requires live { Live records.old work.old k }
    requires room { (0 < k.gates) × (16 * (steps + length (hadamard_sweep k.wires (held records.old work.old k)).steps) ≤ length journal.old) }
    ensures live { Live records.new work.new k }
    ensures did { Did (hadamard_sweep k.wires (held records.old work.old k)) (held records.new work.new k) steps result journal.old journal.new }
    ensures within { Within 0 (words_for k) work.old work.new }
    ensures past { drop (16 * k.gates) records.new ≡ drop (16 * k.gates) records.old }
{
    noting::scan(records, work, k);
    let mut s = steps;
    for w in 0..k.wires {
        s = fire_wire(records, work, journal, k, Wire(w as u32), s);
    }
    s
}
