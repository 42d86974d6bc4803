// The crate's own trial: a list is loaded, asked, changed and finished. Every requires of this crate is met here.
ghost use Rattle.std.specs.Prelude.{◌≡◌, true, ℕ, ◌*◌, ◌≤◌, ◌<◌, length, drop};
ghost use Rattle.gates.specs.Records.{record_at};
ghost use Rattle.links.specs.Words.{Within};
ghost use Rattle.intake.specs.Tests.{first_failing, input_tests};
ghost use Rattle.slots.specs.Slots.{Sound};
ghost use Rattle.slots.specs.Live.{words_for, is_live, held, Loaded, Live};
ghost use Rattle.live.specs.Filling.{whole_list};
ghost use Rattle.live.specs.Trial.{answers_of, dropped_at, records_after, words_after, tried_as};

use crate::{change, finish, load};
use asking::linked::LiveList;
use asking::loaded::LoadedList;
use gates::records::Record;
use gates::{Position, Wire, kinds};
use intake::Sizes;
use intake::faults::Refusal;
use slots::{Extent, Slot};

#[derive(Clone, Copy, PartialEq, Eq)]
pub struct Answers {
    pub before: Option<Slot>,
    pub after: Option<Slot>,
    pub blocker: Option<Slot>,
    pub partner: Option<Slot>,
    pub first: Option<Slot>,
    pub last: Option<Slot>,
}

// Takes the last gate away, asks for its blocker and puts it back.
fn reload_last(records: &mut [u8], work: &mut [u32], k: Extent, list: &[u8])
    requires loaded { Loaded records.old work.old k }
    requires whole_list { (0 < k.gates) × (16 * k.gates ≤ length list.now) × (held records.old work.old k ≡ whole_list list.now k.gates) }
    requires sound { (i : ℕ) → i < k.gates → Sound k.wires (record_at list.now i) }
    ensures loaded { Loaded records.new work.new k }
    ensures whole { held records.new work.new k ≡ whole_list list.now k.gates }
    ensures within { Within 0 (words_for k) work.old work.new }
    ensures past { drop (16 * k.gates) records.new ≡ drop (16 * k.gates) records.old }
{
    let last = k.gates - 1;
    let place = Position(last as u32);
    load::pop(records, work, k, Slot(last));
    let rest = LoadedList {
        records,
        work,
        extent: k,
    };
    let _blocker = rest.blocker_of_next(list, place);
    load::push(records, work, k, Slot(last), list, place);
}

// Asks all that can be asked about a live slot.
fn ask_all(list: &LiveList, slot: Slot) -> Answers
    requires { is_live list.now.work.now list.now.extent slot.0 ≡ true }
    ensures { result ≡ answers_of list.now.records.now list.now.work.now list.now.extent slot.0 }
{
    let r = slot.record(list.records);
    let wire = Wire(r.first);
    let loaded = list.loaded();
    Answers {
        before: loaded.before_on(slot, 0),
        after: list.after_on(slot, 0),
        blocker: loaded.blocker(slot),
        partner: if (8 <= r.kind) & (r.kind <= 11) {
            list.partner(slot)
        } else {
            None
        },
        first: list.first_on(wire),
        last: loaded.last_on(wire),
    }
}

// Drops the gate at a position, if there is one; a gate of one wire is first rewritten as it is.
fn drop_at(records: &mut [u8], work: &mut [u32], k: Extent, place: Position)
    requires { Live records.old work.old k }
    ensures live { Live records.new work.new k }
    ensures dropped { held records.new work.new k ≡ dropped_at place.0 (held records.old work.old k) }
    ensures within { Within 0 (words_for k) work.old work.new }
    ensures past { drop (16 * k.gates) records.new ≡ drop (16 * k.gates) records.old }
{
    let list = LiveList {
        records,
        work,
        extent: k,
    };
    let loaded = list.loaded();
    if (place.0 as usize) < loaded.live_count() {
        let slot = loaded.slot_at(place);
        let _answers = ask_all(&list, slot);
        let _position = loaded.position(slot);
        let _live = loaded.is_live(slot);
        let g = asking::gate_at(records, slot);
        if kinds::row_of(Record::from(g).kind).operands == 1 {
            change::rewrite(records, work, k, slot, g);
        }
        change::drop_slot(records, work, k, slot);
    }
}

// Loads a list, drops the gate at a position and writes out what is left.
pub fn trial(
    list: &[u8],
    wires: usize,
    bits: usize,
    place: Position,
    records: &mut [u8],
    work: &mut [u32],
) -> Result<usize, Refusal>
    ensures records { records.new ≡ records_after (first_failing (input_tests list.now (record { wires = wires; bits = bits; output = length records.old; work = length work.old }) None)) list.now place.0 records.old }
    ensures work { work.new ≡ words_after (first_failing (input_tests list.now (record { wires = wires; bits = bits; output = length records.old; work = length work.old }) None)) list.now wires work.old }
    ensures answer { result ≡ tried_as (first_failing (input_tests list.now (record { wires = wires; bits = bits; output = length records.old; work = length work.old }) None)) list.now place.0 }
{
    let sizes = Sizes {
        wires,
        bits,
        output: records.len(),
        work: work.len(),
    };
    intake::test_input(list, sizes, None)?;
    let k = Extent {
        gates: list.len() / 16,
        wires,
    };
    load::load_all(records, work, k, list);
    if 0 < k.gates {
        reload_last(records, work, k, list);
    }
    load::link(records, work, k);
    drop_at(records, work, k, place);
    Ok(finish::finish(records, work, k))
}
