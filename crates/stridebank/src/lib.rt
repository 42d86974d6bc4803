// The C boundary: each entry under its C name, its answer as numbers.
#![tactic(auto)]

ghost use Rattle.std.specs.Prelude.{◌≡◌, length};
ghost use Rattle.cancel.specs.Cancelling.{tests_of, cancelled_as, out_after, work_after, journal_after, numbers_of};
ghost use Rattle.stridebank.specs.Boundary.{as_numbers};

use cancel::entry;
use cancel::entry::Cancelled;
use intake::faults::Refusal;

// Document 01's number, place, m, s and walked: numbers, since C has no Result.
#[repr(C)]
#[derive(Clone, Copy)]
pub struct StridebankCancelled {
    pub number: u64,
    pub place: u64,
    pub left: u64,
    pub steps: u64,
    pub walked: u64,
}

impl From<Result<Cancelled, Refusal>> for StridebankCancelled {
    ghost from_gives = { λ r numbers. as_numbers numbers ≡ numbers_of r };

    // "Success and acceptance are number 0, place 0 … a refusal gives 0 for m, s and walked."
    fn from(r: Result<Cancelled, Refusal>) -> StridebankCancelled {
        match r {
            Ok(done) => StridebankCancelled {
                number: 0,
                place: 0,
                left: done.left as u64,
                steps: done.steps as u64,
                walked: done.walked,
            },
            Err(why) => StridebankCancelled {
                number: why.fault.number() as u64,
                place: why.place.0 as u64,
                left: 0,
                steps: 0,
                walked: 0,
            },
        }
    }
}

// The pass.
#[unsafe(no_mangle)]
pub extern "C" fn stridebank_cancel(
    wires: usize,
    bits: usize,
    list: &[u8],
    out: &mut [u8],
    work: &mut [u32],
    journal: &mut [u8],
) -> StridebankCancelled
    ensures answer { as_numbers result ≡ numbers_of (cancelled_as (tests_of wires bits list.now (length out.old) (length work.old) (length journal.old)) wires list.now) }
    ensures out { out.new ≡ out_after (tests_of wires bits list.now (length out.old) (length work.old) (length journal.old)) wires list.now out.old }
    ensures work { work.new ≡ work_after (tests_of wires bits list.now (length out.old) (length work.old) (length journal.old)) wires list.now work.old }
    ensures journal { journal.new ≡ journal_after (tests_of wires bits list.now (length out.old) (length work.old) (length journal.old)) wires list.now journal.old }
{
    StridebankCancelled::from(entry::cancel(wires, bits, list, out, work, journal))
}
