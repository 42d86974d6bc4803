// Finish: what is left moves to the front, and the room is zeroed.
ghost use Rattle.std.specs.Prelude.{◌≡◌, cond, ◌+◌, ◌*◌, ◌≤◌, ◌<◌, length};
ghost use Rattle.std.proofs.lemmas.List.Edits.{sets};
ghost use Rattle.gates.specs.Records.{record_at, record_bytes};
ghost use Rattle.slots.specs.Live.{InLimits, is_live, held, Loaded};
ghost use Rattle.live.specs.Finished.{records_left, words_left};

use gates::{Position, records};
use slots::{Extent, Slot};

// Moves a slot's record to the end of those that are kept, if it is live; answers how many are kept.
fn keep_slot(records: &mut [u8], work: &[u32], k: Extent, slot: usize, kept: usize) -> usize
    requires limits { InLimits k }
    requires slots_there { (slot < k.gates) × (kept ≤ slot) }
    requires room { (16 * k.gates ≤ length records.old) × (16 * k.gates + 4 * k.wires ≤ length work.now) }
    ensures moved { records.new ≡ cond (is_live work.now k slot) (sets records.old (16 * kept) (record_bytes (record_at records.old slot))) records.old }
    ensures counted { result ≡ cond (is_live work.now k slot) (kept + 1) kept }
{
    if ranks::is_marked(work, k.ranks_at(), k.gates, slot) {
        let r = Slot(slot).record(records);
        records::put_record(records, Position(kept as u32), r);
        kept + 1
    } else {
        kept
    }
}

// Moves the records that are left to the front, zeroes the others and the words, and answers how many are left.
pub fn finish(records: &mut [u8], work: &mut [u32], k: Extent) -> usize
    requires { Loaded records.old work.old k }
    ensures left { result ≡ length (held records.old work.old k) }
    ensures records { records.new ≡ records_left records.old work.old k }
    ensures work { work.new ≡ words_left work.old k }
{
    let mut kept = 0;
    for slot in 0..k.gates {
        kept = keep_slot(records, work, k, slot, kept);
    }
    records[16 * kept..16 * k.gates].fill(0);
    links::clear(work, 0, 16 * k.gates + 4 * k.wires);
    kept
}
