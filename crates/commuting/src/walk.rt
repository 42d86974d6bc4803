// The walk from a pair to its partner: rounds over the tracks of its operands, one look a track.
ghost use Rattle.std.specs.Prelude.{◌≡◌, true, suc, ◌+◌, ◌*◌, ◌-◌, ◌/◌, ◌≤◌, ◌<◌, length};
ghost use Rattle.gates.specs.Gates.{wires_of};
ghost use Rattle.rules.specs.Equal.{equal};
ghost use Rattle.rules.specs.Sweeps.{walk_past};
ghost use Rattle.leaves.specs.Answers.{pair_of, as_gate};
ghost use Rattle.slots.specs.Slots.{gate_at, cells_from};
ghost use Rattle.slots.specs.Live.{is_live};
ghost use Rattle.commuting.specs.Walking.{as_walk, look_at, node_of, starts_of};

use asking::linked::LiveList;
use gates::Wire;
use gates::records::Record;
use leaves::pairs::CommutingPair;
use passing::quick;
use passing::quick::Past;
use slots::Slot;

#[derive(Clone, Copy, PartialEq, Eq)]
pub enum Ending {
    Reached,
    Blocked,
}

// How a walk ended, and the gates that it looked at.
#[derive(Clone, Copy, PartialEq, Eq)]
pub struct Walked {
    pub ending: Ending,
    pub looks: u64,
}

#[derive(Clone, Copy, PartialEq, Eq)]
pub enum Seen {
    Partner,
    Passed(usize),
    Blocker,
}

// One look, at the gate of a node: it is the partner, or it may pass and the next node on the wire is known, or it blocks.
fn look(records: &[u8], work: &[u32], past: Past, partner: Slot, node: usize) -> Seen
    requires { (node < length work.now) × (16 * (node / 3) + 16 ≤ length records.now) × (node / 3 < 1048576) }
    ensures { result ≡ look_at records.now work.now past partner.0 node }
{
    let slot = Slot(node / 3);
    if slot == partner {
        return Seen::Partner;
    }
    if quick::may_pass(past, slot.record(records)) {
        Seen::Passed(work[node] as usize)
    } else {
        Seen::Blocker
    }
}

// The node behind a gate's own on a wire of its.
fn node_after(work: &[u32], slot: Slot, r: Record, wire: Wire) -> usize
    requires { (3 * slot.0 + 3 ≤ length work.now) × (slot.0 < 1048576) }
    ensures { result ≡ node_of work.now slot.0 r wire.0 }
{
    let node = 3 * slot.0;
    if r.first == wire.0 {
        work[node] as usize
    } else if r.second == wire.0 {
        work[node + 1] as usize
    } else {
        work[node + 2] as usize
    }
}

// The nodes behind a pair's own, in the canonical order of its wires; 0 past the last.
fn starts(work: &[u32], slot: Slot, r: Record, pair: CommutingPair) -> [usize; 3]
    requires { (3 * slot.0 + 3 ≤ length work.now) × (slot.0 < 1048576) }
    ensures { result ≡ starts_of work.now slot.0 r pair }
{
    match pair {
        CommutingPair::Cnot(a, b) | CommutingPair::Cz(a, b) => {
            [
                node_after(work, slot, r, a),
                node_after(work, slot, r, b),
                0,
            ]
        }
        CommutingPair::Ccx(a, b, c) | CommutingPair::Ccz(a, b, c) => [
            node_after(work, slot, r, a),
            node_after(work, slot, r, b),
            node_after(work, slot, r, c),
        ],
    }
}

// How many wires a pair has.
fn operands(pair: CommutingPair) -> usize
    ensures { result ≡ length (wires_of (as_gate pair)) }
{
    match pair {
        CommutingPair::Cnot(_, _) | CommutingPair::Cz(_, _) => 2,
        CommutingPair::Ccx(_, _, _) | CommutingPair::Ccz(_, _, _) => 3,
    }
}

// The walk from a pair to its partner. A node of 0, which no gate behind another has, is a finished track's: nodes are words, and
// an Option would be made and taken apart at each look.
pub fn walk_past(list: &LiveList, slot: Slot, partner: Slot, pair: CommutingPair) -> Walked
    requires both_live { (is_live list.now.work.now list.now.extent slot.0 ≡ true) × (is_live list.now.work.now list.now.extent partner.0 ≡ true) × (slot.0 < partner.0) }
    requires partners { (pair_of (gate_at list.now.records.now slot.0) ≡ Some pair) × (equal (gate_at list.now.records.now slot.0) (gate_at list.now.records.now partner.0) ≡ true) }
    ensures walked { as_walk result ≡ walk_past (gate_at list.now.records.now slot.0) (cells_from (is_live list.now.work.now list.now.extent) (gate_at list.now.records.now) (suc slot.0) (partner.0 - suc slot.0)) }
    ensures few { result.looks ≤ 3 * list.now.extent.gates }
{
    let records = list.records;
    let work = list.work;
    let past = quick::past_of(pair);
    let r = slot.record(records);
    let count = operands(pair);
    let mut at = starts(work, slot, r, pair);
    let mut open = count;
    let mut looks: u64 = 0;
    let mut ending = Ending::Reached;
    'walk: while 0 < open {
        for op in 0..count {
            let node = at[op];
            if node != 0 {
                looks += 1;
                let seen = look(records, work, past, partner, node);
                match seen {
                    Seen::Partner => {
                        at[op] = 0;
                        open -= 1;
                    }
                    Seen::Passed(next) => {
                        at[op] = next;
                    }
                    Seen::Blocker => {
                        ending = Ending::Blocked;
                        break 'walk;
                    }
                }
            }
        }
    }
    Walked { ending, looks }
}
