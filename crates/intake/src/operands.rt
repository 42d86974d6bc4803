// Numbers 10 to 12: the operands of one record.
ghost use Rattle.std.specs.Prelude.{◌≡◌, [], ◌∷◌, ◌≤◌, ◌<◌, leb, take};
ghost use Rattle.gates.specs.Gates.{twice};
ghost use Rattle.intake.specs.Tests.{first_failing, operand_tests, any_over};

use crate::faults::{Fault, Refusal};
use gates::records::Record;
use gates::{Bit, Position, Wire, kinds};

// A wire against the number of wires, a bit against that of bits: two functions, so that neither is taken for the other.
fn wire_over(wire: Wire, wires: usize) -> bool
    ensures { result ≡ leb wires wire.0 }
{
    wires <= wire.0 as usize
}

fn bit_over(bit: Bit, bits: usize) -> bool
    ensures { result ≡ leb bits bit.0 }
{
    bits <= bit.0 as usize
}

// Whether one of a record's first `count` words is at or over `wires`. No branch goes by the count, and so no
// loop: lists mix kinds freely (docs/PERFORMANCE.md has the times of both forms).
#[tactic(auto, using(crate::proofs::TestLaws::over_by_count))]
fn any_over(count: u8, r: Record, wires: usize) -> bool
    requires { (1 ≤ count) × (count ≤ 3) }
    ensures { result ≡ any_over wires (take count (r.first ∷ r.second ∷ r.third ∷ [])) }
{
    wire_over(Wire(r.first), wires)
        | ((2 <= count) & wire_over(Wire(r.second), wires))
        | ((3 <= count) & wire_over(Wire(r.third), wires))
}

// Whether one of a record's first `count` words stands there twice.
#[tactic(auto, using(crate::proofs::TestLaws::twice_by_count))]
fn any_twice(count: u8, r: Record) -> bool
    requires { (1 ≤ count) × (count ≤ 3) }
    ensures { result ≡ twice (take count (r.first ∷ r.second ∷ r.third ∷ [])) }
{
    ((2 <= count) & (r.first == r.second))
        | ((3 <= count) & ((r.first == r.third) | (r.second == r.third)))
}

// The operands of a record of a known kind, as many as the table of kinds says.
#[tactic(auto, using(gates::proofs::RecordLaws::row_small, crate::proofs::TestLaws::on_operands), unfolding(crate::specs::Tests::first_failing, crate::specs::Tests::operand_tests))]
pub fn test_operands(r: Record, place: Position, wires: usize, bits: usize) -> Result<(), Refusal>
    requires { r.kind < 27 }
    ensures { result ≡ first_failing (operand_tests wires bits place.0 r) }
{
    let row = kinds::row_of(r.kind);
    if any_over(row.operands, r, wires) {
        return Err(Fault::WireOver.at(place));
    }
    if any_twice(row.operands, r) {
        return Err(Fault::WireTwice.at(place));
    }
    if (r.kind == 12) & bit_over(Bit(r.second), bits) {
        return Err(Fault::BitOver.at(place));
    }
    Ok(())
}
