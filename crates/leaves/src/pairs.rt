// Canonical pairs.
ghost use Rattle.std.specs.Prelude.{◌≡◌};
ghost use Rattle.leaves.specs.Answers.{pair_of};

use crate::equal;
use crate::equal::{Three, Two};
use gates::{Gate, Wire};

// A cnot, cz, ccx or ccz with its wires in canonical order.
#[derive(Clone, Copy, PartialEq, Eq)]
pub enum CommutingPair {
    Cnot(Wire, Wire),
    Cz(Wire, Wire),
    Ccx(Wire, Wire, Wire),
    Ccz(Wire, Wire, Wire),
}

// The canonical pair of a gate, if it is one of those four.
#[tactic(auto, unfolding(crate::specs::Answers::pair_of, rules::specs::Equal::canonical, rules::specs::Equal::ordered, gates::specs::Gates::has, gates::specs::Gates::wires_of, gates::specs::Records::record_of))]
pub fn pair_of(g: Gate) -> Option<CommutingPair>
    ensures { result ≡ pair_of g }
{
    match g {
        Gate::Cnot { control, target } => Some(CommutingPair::Cnot(control, target)),
        Gate::Cz { control, target } => {
            let Two { first, second } = equal::canonical_pair(control, target);
            Some(CommutingPair::Cz(first, second))
        }
        Gate::Ccx {
            control1,
            control2,
            target,
        } => {
            let Three {
                first,
                second,
                third,
            } = equal::canonical_ccx(control1, control2, target);
            Some(CommutingPair::Ccx(first, second, third))
        }
        Gate::Ccz {
            control1,
            control2,
            target,
        } => {
            let Three {
                first,
                second,
                third,
            } = equal::canonical_triple(control1, control2, target);
            Some(CommutingPair::Ccz(first, second, third))
        }
        _ => None,
    }
}
