// The entry of the pass: it tests its own input, and works only on what is good.
ghost use Rattle.std.specs.Prelude.{◌≡◌, length};
ghost use Rattle.cancel.specs.Cancelling.{tests_of, cancelled_as, out_after, work_after, journal_after};

use crate::rounds;
use intake::Sizes;
use intake::faults::Refusal;
use live::{finish, load};
use pairing::first;
use slots::Extent;

// Document 01's m, s and walked: the records left, the steps of the journal, and the gates that walks looked at.
#[derive(Clone, Copy, PartialEq, Eq)]
pub struct Cancelled {
    pub left: usize,
    pub steps: usize,
    pub walked: u64,
}

// The pass on a list of records. What is left goes to the front of `out`, its steps into `journal`.
pub fn cancel(
    wires: usize,
    bits: usize,
    list: &[u8],
    out: &mut [u8],
    work: &mut [u32],
    journal: &mut [u8],
) -> Result<Cancelled, Refusal>
    ensures answer { result ≡ cancelled_as (tests_of wires bits list.now (length out.old) (length work.old) (length journal.old)) wires list.now }
    ensures out { out.new ≡ out_after (tests_of wires bits list.now (length out.old) (length work.old) (length journal.old)) wires list.now out.old }
    ensures work { work.new ≡ work_after (tests_of wires bits list.now (length out.old) (length work.old) (length journal.old)) wires list.now work.old }
    ensures journal { journal.new ≡ journal_after (tests_of wires bits list.now (length out.old) (length work.old) (length journal.old)) wires list.now journal.old }
{
    let sizes = Sizes {
        wires,
        bits,
        output: out.len(),
        work: work.len(),
    };
    intake::test_input(list, sizes, Some(journal.len()))?;
    let k = Extent {
        gates: list.len() / 16,
        wires,
    };
    let loaded = first::load_pairs(out, work, journal, k, list);
    load::link(out, work, k);
    let swept = rounds::all_rounds(out, work, journal, k, loaded);
    let left = finish::finish(out, work, k);
    journal[16 * swept.steps..24 * k.gates].fill(0);
    Ok(Cancelled {
        left,
        steps: swept.steps,
        walked: swept.looks,
    })
}
