// Changes of the live list.
ghost use Rattle.std.specs.Prelude.{◌≡◌, true, cond, [], ◌∷◌, ◌+◌, ◌*◌, ◌≤◌, ◌<◌, length, set};
ghost use Rattle.gates.specs.Gates.{wires_of, has};
ghost use Rattle.gates.specs.Records.{record_at, record_of, kind_of, of_kind};
ghost use Rattle.links.specs.Words.{Within};
ghost use Rattle.slots.specs.Slots.{gate_at, left_out, rewritten};
ghost use Rattle.slots.specs.Live.{InLimits, pairs_at, pair_prev_at, spare_at, is_live, held, Live};
ghost use Rattle.slots.specs.Nodes.{joined_past, CanPass};

use gates::Gate;
use gates::records::Record;
use slots::{Extent, Slot, nodes};

// Passes a slot by among its equals, if it is a cnot, cz, ccx or ccz; the kind by its number, as the record has it.
fn unpair(work: &mut [u32], k: Extent, slot: usize, kind: u8)
    requires limits { InLimits k }
    requires slot_there { slot < k.gates }
    requires can_pass { has kind (8 ∷ 9 ∷ 10 ∷ 11 ∷ []) ≡ true → CanPass (pairs_at k) (pair_prev_at k) (slot + 1) work.old }
    ensures { work.new ≡ cond (has kind (8 ∷ 9 ∷ 10 ∷ 11 ∷ [])) (joined_past (pairs_at k) (pair_prev_at k) (slot + 1) work.old) work.old }
{
    if (8 <= kind) & (kind <= 11) {
        links::unlink(work, k.pairs_at(), k.pair_prev_at(), slot + 1);
    }
}

// Takes a gate out of the list.
pub fn drop_slot(records: &[u8], work: &mut [u32], k: Extent, slot: Slot)
    requires live { Live records.now work.old k }
    requires slot_live { is_live work.old k slot.0 ≡ true }
    ensures live { Live records.now work.new k }
    ensures dropped { held records.now work.new k ≡ left_out slot.0 (held records.now work.old k) }
    ensures within { Within 0 (spare_at k) work.old work.new }
{
    let r = slot.record(records);
    nodes::pass_by(work, k.prev_at(), 3 * slot.0, nodes::operand_count(r));
    unpair(work, k, slot.0, r.kind);
    ranks::take_out(work, k.ranks_at(), k.gates, slot.0);
}

// Puts another gate of one wire in place of a gate of that wire: their records differ only in the kind.
pub fn rewrite(records: &mut [u8], work: &[u32], k: Extent, slot: Slot, g: Gate)
    requires live { Live records.old work.now k }
    requires slot_live { is_live work.now k slot.0 ≡ true }
    requires one_wire { (length (wires_of g) ≡ 1) × (length (wires_of (gate_at records.old slot.0)) ≡ 1) × (record_of g ≡ of_kind (kind_of g) (record_at records.old slot.0)) }
    ensures live { Live records.new work.now k }
    ensures rewritten { held records.new work.now k ≡ rewritten slot.0 g (held records.old work.now k) }
    ensures record { records.new ≡ set records.old (16 * slot.0) (kind_of g) }
{
    let r = Record::from(g);
    records[16 * slot.0] = r.kind;
}
