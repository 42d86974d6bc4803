// Partners: each cnot, cz, ccx and ccz is linked to the equal ones before and after it. Three keys tell equal pairs. The lent
// slices go apart: document 01, "separate lent slices".
#![tactic(auto)]

ghost use Rattle.std.specs.Prelude.{◌≡◌, cond, ◌+◌, ◌*◌, ◌≤◌, ◌<◌, length};
ghost use Rattle.gates.specs.Gates.{All};
ghost use Rattle.gates.specs.Records.{operand_words};
ghost use Rattle.rules.specs.Equal.{ordered};
ghost use Rattle.order.specs.Order.{list_at};
ghost use Rattle.slots.specs.Live.{Loaded, Partners};
ghost use Rattle.slots.specs.Keeping.{KeepsLoaded};
ghost use Rattle.partners.specs.Pairs.{raised, keys_from, put_in, room_for, ListedTo};

use gates::Wire;
use gates::records::Record;
use leaves::equal;
use leaves::equal::Two;
use order::Room;
use slots::{Extent, Slot};

// Two gates of these kinds are equal exactly where their keys are.
#[derive(Clone, Copy, PartialEq, Eq)]
pub struct Keys {
    pub first: u32,
    pub middle: u32,
    pub last: u32,
}

// One of two numbers, without a branch: lists mix kinds freely.
fn either(one: bool, a: u32, b: u32) -> u32
    ensures { result ≡ cond one a b }
{
    if one { a } else { b }
}

// The keys of a cnot, cz, ccx or ccz. A ccx branches: a ccz's three wires in order cost more than the branch.
fn keys_of(r: Record, wires: u32) -> Keys
    requires le_kind { (8 ≤ r.kind) × (r.kind ≤ 11) × (wires ≤ 65536) }
    requires all { All (λ w. w < wires) (operand_words r) }
    ensures { result ≡ keys_from (raised wires r.kind) (ordered r.kind (operand_words r)) }
{
    let kind = r.kind;
    let a = Wire(r.first);
    let b = Wire(r.second);
    let Two {
        first: low,
        second: high,
    } = equal::canonical_pair(a, b);
    if kind < 10 {
        let plain = kind == 8;
        let raise = (kind % 2) as u32 * wires;
        return Keys {
            first: either(plain, r.first, low.0),
            middle: 0,
            last: either(plain, r.second, high.0) + raise,
        };
    }
    if kind == 10 {
        return Keys {
            first: low.0,
            middle: high.0,
            last: r.third,
        };
    }
    let three = equal::canonical_triple(a, b, Wire(r.third));
    Keys {
        first: three.first.0,
        middle: three.second.0,
        last: three.third.0 + wires,
    }
}

// Writes a slot's keys, and the slot at the end of the list.
fn put_keys(work: &mut [u32], slot: usize, keys: Keys, end: usize)
    requires { (3 * slot + 2 < end) × (end < length work.old) × (slot < 1048576) }
    ensures { work.new ≡ put_in slot keys end work.old }
{
    work[3 * slot] = keys.first;
    work[3 * slot + 1] = keys.middle;
    work[3 * slot + 2] = keys.last;
    work[end] = slot as u32;
}

// Lists a slot if it is a live cnot, cz, ccx or ccz; answers the length of the list.
fn list_slot(
    records: &[u8],
    work: &mut [u32],
    k: Extent,
    slot: usize,
    list: usize,
    count: usize,
) -> usize
    requires loaded { Loaded records.now work.old k }
    requires slot_lt_gates { (slot < k.gates) × (list ≡ list_at (room_for k)) × ListedTo records.now work.old k slot count }
    ensures listed { ListedTo records.now work.new k (slot + 1) result }
    ensures kept { KeepsLoaded k work.old work.new }
{
    let r = Slot(slot).record(records);
    let live = ranks::is_marked(work, k.ranks_at(), k.gates, slot);
    if live & (8 <= r.kind) & (r.kind <= 11) {
        put_keys(work, slot, keys_of(r, k.wires as u32), list + count);
        count + 1
    } else {
        count
    }
}

// Lists the live cnot, cz, ccx and ccz with their keys.
fn list_pairs(records: &[u8], work: &mut [u32], k: Extent, list: usize) -> usize
    requires loaded { Loaded records.now work.old k }
    requires gates_nonzero { (0 < k.gates) × (list ≡ list_at (room_for k)) }
    ensures listed { ListedTo records.now work.new k k.gates result }
    ensures kept { KeepsLoaded k work.old work.new }
{
    let mut count = 0;
    for slot in 0..k.gates {
        count = list_slot(records, work, k, slot, list, count);
    }
    count
}

// Links the live cnot, cz, ccx and ccz to those that are equal.
pub fn pair_up(records: &[u8], work: &mut [u32], k: Extent)
    requires { Loaded records.now work.old k }
    ensures paired { Partners records.now work.new k }
    ensures kept { KeepsLoaded k work.old work.new }
{
    let g = k.gates;
    if g == 0 {
        return;
    }
    let base = k.pairs_at();
    let count = list_pairs(records, work, k, k.spare_at());
    order::pair_up(
        work,
        Room {
            base,
            slots: g,
            wires: k.wires,
        },
        count,
    );
}
