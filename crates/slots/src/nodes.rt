// Nodes: one for each operand of a gate in a slot, one for the end of each wire. Links lead from node to node.
ghost use Rattle.std.specs.Prelude.{◌≡◌, cond, [], ◌∷◌, ◌+◌, ◌*◌, ◌-◌, ◌≤◌, ◌<◌, eqb, length, get_or};
ghost use Rattle.links.specs.Words.{word, Within};
ghost use Rattle.slots.specs.Slots.{found};
ghost use Rattle.slots.specs.Live.{InLimits, nodes_for};
ghost use Rattle.slots.specs.Nodes.{Closed, hung, taken_off, InRoom, passed_by, CanPassAll, slot_in};
ghost use Rattle.gates.specs.Records.{operand_words};

use crate::{Extent, Slot};
use gates::kinds;
use gates::records::Record;

// How many wires a gate has: the table of kinds says.
pub fn operand_count(r: Record) -> usize
    requires { r.kind < 27 }
    ensures { (result ≡ length (operand_words r)) × (result ≤ 3) }
{
    kinds::row_of(r.kind).operands as usize
}

// A word of a record.
pub fn operand(r: Record, op: usize) -> u32
    requires { op < 3 }
    ensures { result ≡ get_or (r.first ∷ r.second ∷ r.third ∷ []) op 0 }
{
    [r.first, r.second, r.third][op]
}

// Makes each wire empty on one side: its end leads to itself.
pub fn close_ends(work: &mut [u32], side: usize, k: Extent)
    requires limits { InLimits k }
    requires room { side + nodes_for k ≤ length work.old }
    ensures { Closed side k work.old work.new }
{
    let ends = 3 * k.gates;
    for w in 0..k.wires {
        work[side + ends + w] = (ends + w) as u32;
    }
}

// The one place or the other, which comes before it. By a product, since a choice of a place is made a branch, and lists mix
// kinds freely.
fn one_of(first: usize, one: usize, other: usize) -> usize
    requires { (first ≤ 1) × (other ≤ one) }
    ensures { result ≡ cond (eqb first 1) one other }
{
    other + first * (one - other)
}

// Puts a slot's nodes on the stacks of its wires, on one side. A cell past its operands is put on itself: what it holds does not
// matter.
pub fn hang(work: &mut [u32], side: usize, k: Extent, r: Record, slot: usize)
    requires { InRoom work.old side k slot r }
    ensures { Within (side + 3 * slot + length (operand_words r)) (3 - length (operand_words r)) (hung side (3 * k.gates) (3 * slot) (operand_words r) work.old) work.new }
{
    let ends = side + 3 * k.gates;
    let node = 3 * slot;
    let cell = side + node;
    let count = operand_count(r);
    let second = one_of(count / 2, ends + r.second as usize, cell + 1);
    let third = one_of((count + 1) / 4, ends + r.third as usize, cell + 2);
    links::push_on(work, ends + r.first as usize, cell, node as u32);
    links::push_on(work, second, cell + 1, node as u32 + 1);
    links::push_on(work, third, cell + 2, node as u32 + 2);
}

// Takes a slot's nodes off those stacks, where they are the last.
pub fn take_off(work: &mut [u32], side: usize, k: Extent, r: Record, slot: usize)
    requires { InRoom work.old side k slot r }
    ensures { work.new ≡ taken_off side (3 * k.gates) (3 * slot) (operand_words r) work.old }
{
    let ends = side + 3 * k.gates;
    let count = operand_count(r);
    for op in 0..count {
        let w = operand(r, op) as usize;
        let node = 3 * slot + op;
        work[ends + w] = work[side + node];
    }
}

// Passes so many nodes by, one after another.
pub fn pass_by(work: &mut [u32], prev: usize, node: usize, count: usize)
    requires { (CanPassAll prev node count work.old) × (node + count ≤ length work.old) }
    ensures { work.new ≡ passed_by prev node count work.old }
{
    for op in 0..count {
        links::unlink(work, 0, prev, node + op);
    }
}

// The slot to which a node is linked on one side.
pub fn beside(work: &[u32], side: usize, k: Extent, node: usize) -> Option<Slot>
    requires { (side + node < length work.now) × (k.gates ≤ 1048576) }
    ensures { result ≡ found (slot_in (3 * k.gates) (word work.now side node)) }
{
    let other = work[side + node] as usize;
    (other < 3 * k.gates).then_some(Slot(other / 3))
}
