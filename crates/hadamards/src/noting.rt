// The scan: what fires on each wire is noted in spare words, before anything is changed.
ghost use Rattle.std.specs.Prelude.{◌≡◌, true, cond, ℕ, ◌+◌, ◌*◌, ◌-◌, ◌≤◌, ◌<◌, eqb, length};
ghost use Rattle.rules.specs.Runs.{is_h_on};
ghost use Rattle.links.specs.Words.{word, Within};
ghost use Rattle.slots.specs.Slots.{gate_at};
ghost use Rattle.slots.specs.Live.{InLimits, spare_at, is_live, Live};
ghost use Rattle.hadamards.specs.Chains.{tails_at, notes_for, noted_in, NotedTo, Noted};

use crate::closing;
use asking::linked::LiveList;
use asking::loaded::LoadedList;
use gates::Wire;
use slots::{Extent, Slot};

// The word that leads to the next firing of a wire: the wire's head, or that of its last closer.
fn link_at(tail: usize, head: usize, nexts: usize) -> usize
    requires { (tail ≤ 1048576) × (nexts ≤ 33554432) }
    ensures { result ≡ cond (eqb tail 0) head (nexts + (tail - 1)) }
{
    if tail == 0 { head } else { nexts + (tail - 1) }
}

// Notes a firing as the last of its wire so far, in lent words: a slot as its number and 1, 0 for none.
fn note(work: &mut [u32], k: Extent, wire: usize, opener: usize, closer: usize)
    requires limits { InLimits k }
    requires room { (wire < k.wires) × (opener < k.gates) × (closer < k.gates) × (spare_at k + notes_for k ≤ length work.old) }
    requires tail_bound { word work.old (tails_at k) wire ≤ k.gates }
    ensures { work.new ≡ noted_in k wire opener closer work.old }
{
    let nexts = k.spare_at();
    let heads = nexts + 2 * k.gates;
    let tails = heads + k.wires;
    let tail = work[tails + wire] as usize;
    let link = link_at(tail, heads + wire, nexts);
    work[link] = closer as u32 + 1;
    work[tails + wire] = closer as u32 + 1;
    work[nexts + closer] = 0;
    work[nexts + k.gates + closer] = opener as u32;
}

// Tries an h as an opener, if it has not closed, and notes what fires.
fn scan_h(records: &[u8], work: &mut [u32], k: Extent, slot: Slot, on: Wire)
    requires live { Live records.now work.old k }
    requires slot_live { (is_live work.old k slot.0 ≡ true) × (is_h_on on.0 (gate_at records.now slot.0) ≡ true) }
    requires noted { (w : ℕ) → w < k.wires → NotedTo records.now work.old k w slot.0 }
    ensures noted { (w : ℕ) → w < k.wires → NotedTo records.now work.new k w (slot.0 + 1) }
    ensures within { Within (spare_at k) (notes_for k) work.old work.new }
{
    let wire = on.0 as usize;
    let tails = k.spare_at() + 2 * k.gates + k.wires;
    if (work[tails + wire] as usize) <= slot.0 {
        let list = LiveList {
            records,
            work,
            extent: k,
        };
        if let Some(closer) = closing::closer_of(closing::opens(&list, slot, on), on) {
            note(work, k, wire, slot.0, closer.0);
        }
    }
}

// One turn of the scan.
fn scan_slot(records: &[u8], work: &mut [u32], k: Extent, slot: Slot)
    requires live { Live records.now work.old k }
    requires slot_there { slot.0 < k.gates }
    requires noted { (w : ℕ) → w < k.wires → NotedTo records.now work.old k w slot.0 }
    ensures noted { (w : ℕ) → w < k.wires → NotedTo records.now work.new k w (slot.0 + 1) }
    ensures within { Within (spare_at k) (notes_for k) work.old work.new }
{
    let loaded = LoadedList {
        records,
        work,
        extent: k,
    };
    if loaded.is_live(slot) {
        if asking::kind_at(records, slot) == 1 {
            scan_h(records, work, k, slot, asking::wire_at(records, slot));
        }
    }
}

// Notes what fires on each wire, over the list as it stands.
pub fn scan(records: &[u8], work: &mut [u32], k: Extent)
    requires live { Live records.now work.old k }
    requires some_gates { 0 < k.gates }
    ensures noted { Noted records.now work.new k }
    ensures within { Within (spare_at k) (notes_for k) work.old work.new }
{
    links::clear(work, k.spare_at() + 2 * k.gates, 2 * k.wires);
    for i in 0..k.gates {
        scan_slot(records, work, k, Slot(i));
    }
}
