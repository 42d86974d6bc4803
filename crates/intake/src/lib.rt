// The tests that every entry makes of its own input: numbers 1 to 12 of document 01, in their order.
#![tactic(auto)]

ghost use Rattle.std.specs.Prelude.{◌≡◌, ◌+◌, ◌*◌, ◌≤◌, length};
ghost use Rattle.gates.specs.Records.{record_at};
ghost use Rattle.intake.specs.Tests.{first_failing, size_tests, journal_tests, record_tests, list_tests, input_tests};

use faults::{Fault, Refusal};
use gates::{Gate, Position, records};

pub mod faults;
mod operands;

// What a caller has: wires, classical bits, bytes of output (checker: replay), 32-bit words of work.
#[derive(Clone, Copy)]
pub struct Sizes {
    pub wires: usize,
    pub bits: usize,
    pub output: usize,
    pub work: usize,
}

// Numbers 1 to 5. The products are made behind the tests that bound them.
#[tactic(auto, unfolding(crate::specs::Tests::first_failing, crate::specs::Tests::size_tests))]
pub fn test_sizes(bytes: usize, s: Sizes) -> Result<(), Refusal>
    ensures { result ≡ first_failing (size_tests bytes s) }
{
    if 65536 < s.wires {
        return Err(Fault::TooWide.at(Position(0)));
    }
    if 65536 < s.bits {
        return Err(Fault::TooWide.at(Position(0)));
    }
    if bytes % 16 != 0 {
        return Err(Fault::NotWhole.at(Position(0)));
    }
    let g = bytes / 16;
    if 1048576 < g {
        return Err(Fault::TooLong.at(Position(0)));
    }
    if s.output < bytes {
        return Err(Fault::OutputShort.at(Position(0)));
    }
    if s.work < 16 * g + 4 * s.wires {
        return Err(Fault::WorkShort.at(Position(0)));
    }
    Ok(())
}

// Number 6, by a quotient: 24g might not fit. Only the pass is asked for room for a journal.
#[tactic(auto, unfolding(crate::specs::Tests::first_failing, crate::specs::Tests::journal_tests))]
pub fn test_journal_room(bytes: usize, journal: Option<usize>) -> Result<(), Refusal>
    ensures { result ≡ first_failing (journal_tests bytes journal) }
{
    match journal {
        Some(room) if room / 24 < bytes / 16 => Err(Fault::JournalShort.at(Position(0))),
        _ => Ok(()),
    }
}

// Numbers 7 to 12 for the record at a place.
#[tactic(auto, using(crate::proofs::RecordLaws::kind_of_gate, crate::proofs::RecordLaws::gate_tested, crate::proofs::RecordLaws::refused_tested))]
pub fn test_record(list: &[u8], place: Position, wires: usize, bits: usize) -> Result<(), Refusal>
    requires { 16 * place.0 + 16 ≤ length list.now }
    ensures { result ≡ first_failing (record_tests wires bits place.0 (record_at list.now place.0)) }
{
    let r = records::record_at(list, place);
    match Gate::try_from(r) {
        Ok(_) => operands::test_operands(r, place, wires, bits),
        Err(why) => Err(Fault::from(why).at(place)),
    }
}

// Numbers 7 to 12 for the records from the first on.
#[tactic(auto, using(crate::proofs::TestLaws::record_accepted, crate::proofs::TestLaws::record_refused, crate::proofs::TestLaws::records_end))]
pub fn test_records(list: &[u8], wires: usize, bits: usize) -> Result<(), Refusal>
    requires { length list.now ≤ 16 * 1048576 }
    ensures { result ≡ first_failing (list_tests wires bits list.now) }
{
    for i in 0..list.len() / 16 {
        test_record(list, Position(i as u32), wires, bits)?;
    }
    Ok(())
}

// All tests of a call's input, in their order.
#[tactic(auto, using(crate::proofs::TestLaws::accepted_then, crate::proofs::TestLaws::refused_then, crate::proofs::SizeLaws::bytes_bounded))]
pub fn test_input(list: &[u8], s: Sizes, journal: Option<usize>) -> Result<(), Refusal>
    ensures { result ≡ first_failing (input_tests list.now s journal) }
{
    test_sizes(list.len(), s)?;
    test_journal_room(list.len(), journal)?;
    test_records(list, s.wires, s.bits)
}
