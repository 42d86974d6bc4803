// Which gates may pass a pair.
#![tactic(auto)]

pub mod quick;

ghost use Rattle.std.specs.Prelude.{◌≡◌};
ghost use Rattle.gates.specs.declared.Gate.TheVariants as Gates;
ghost use Rattle.gates.specs.Gates.{touches};
ghost use Rattle.leaves.specs.Answers.{as_gate};
ghost use Rattle.rules.specs.MayPass.{may_pass};

use gates::{Gate, Wire};
use leaves::pairs::CommutingPair;

// Whether a gate touches a wire.
#[tactic(auto, unfolding(gates::specs::Gates::has, gates::specs::Gates::wires_of))]
pub fn touches(g: Gate, on: Wire) -> bool
    ensures { result ≡ touches on.0 g }
{
    match g {
        Gate::X(a)
        | Gate::H(a)
        | Gate::S(a)
        | Gate::Sdg(a)
        | Gate::Z(a)
        | Gate::T(a)
        | Gate::Tdg(a)
        | Gate::Reset(a)
        | Gate::Y(a)
        | Gate::Sx(a) => on == a,
        Gate::Measure { qubit, .. } => on == qubit,
        Gate::Swap(a, b) => (on == a) | (on == b),
        Gate::Cnot { control, target }
        | Gate::Cz { control, target }
        | Gate::Cy { control, target }
        | Gate::Ch { control, target } => (on == control) | (on == target),
        Gate::Ccx {
            control1,
            control2,
            target,
        }
        | Gate::Ccz {
            control1,
            control2,
            target,
        } => (on == control1) | (on == control2) | (on == target),
        Gate::Cswap {
            control,
            first,
            second,
        } => (on == control) | (on == first) | (on == second),
    }
}

// Whether a gate may pass cnot(c, t).
#[tactic(auto, unfolding(gates::specs::Gates::has, gates::specs::Gates::meet, gates::specs::Gates::wires_of, rules::specs::MayPass::class_of, rules::specs::MayPass::past))]
pub fn commutes_past_cnot(g: Gate, c: Wire, t: Wire) -> bool
    ensures { result ≡ may_pass (Gates.Cnot c t) g }
{
    match g {
        Gate::X(w) => w != c,
        Gate::S(w) | Gate::Sdg(w) | Gate::Z(w) | Gate::T(w) | Gate::Tdg(w) => w != t,
        Gate::Cnot { control, target } => (control != t) & (target != c),
        Gate::Cz { control, target } => (control != t) & (target != t),
        Gate::Ccz {
            control1,
            control2,
            target,
        } => (control1 != t) & (control2 != t) & (target != t),
        _ => !(touches(g, c) | touches(g, t)),
    }
}

// Whether a gate may pass cz(a, b): it is passed by what passes a ccz on its two wires, one of them twice.
#[tactic(auto, using(crate::proofs::PassingLaws::cz_as_ccz))]
pub fn commutes_past_cz(g: Gate, a: Wire, b: Wire) -> bool
    ensures { result ≡ may_pass (Gates.Cz a b) g }
{
    commutes_past_ccz(g, a, b, b)
}

// Whether a gate may pass ccx(a, b, t).
#[tactic(auto, unfolding(gates::specs::Gates::has, gates::specs::Gates::meet, gates::specs::Gates::wires_of, rules::specs::MayPass::class_of, rules::specs::MayPass::past))]
pub fn commutes_past_ccx(g: Gate, a: Wire, b: Wire, t: Wire) -> bool
    ensures { result ≡ may_pass (Gates.Ccx a b t) g }
{
    match g {
        Gate::X(w) => (w == t) | ((w != a) & (w != b)),
        Gate::S(w) | Gate::Sdg(w) | Gate::Z(w) | Gate::T(w) | Gate::Tdg(w) => w != t,
        Gate::Cnot { control, target } => (target != a) & (target != b) & (control != t),
        Gate::Cz { control, target } => (control != t) & (target != t),
        Gate::Ccx {
            control1,
            control2,
            target,
        } => (target != a) & (target != b) & (control1 != t) & (control2 != t),
        Gate::Ccz {
            control1,
            control2,
            target,
        } => (control1 != t) & (control2 != t) & (target != t),
        _ => !(touches(g, a) | touches(g, b) | touches(g, t)),
    }
}

// Whether a gate may pass ccz(a, b, c).
#[tactic(auto, unfolding(gates::specs::Gates::has, gates::specs::Gates::meet, gates::specs::Gates::wires_of, rules::specs::MayPass::class_of, rules::specs::MayPass::past))]
pub fn commutes_past_ccz(g: Gate, a: Wire, b: Wire, c: Wire) -> bool
    ensures { result ≡ may_pass (Gates.Ccz a b c) g }
{
    match g {
        Gate::S(_) | Gate::Sdg(_) | Gate::Z(_) | Gate::T(_) | Gate::Tdg(_) => true,
        Gate::Cz { .. } | Gate::Ccz { .. } => true,
        Gate::Cnot { target, .. } | Gate::Ccx { target, .. } => {
            (target != a) & (target != b) & (target != c)
        }
        _ => !(touches(g, a) | touches(g, b) | touches(g, c)),
    }
}

// Whether a gate may pass a pair.
#[tactic(auto, unfolding(leaves::specs::Answers::as_gate))]
pub fn commutes_with(pair: CommutingPair, g: Gate) -> bool
    ensures { result ≡ may_pass (as_gate pair) g }
{
    match pair {
        CommutingPair::Cnot(c, t) => commutes_past_cnot(g, c, t),
        CommutingPair::Cz(a, b) => commutes_past_cz(g, a, b),
        CommutingPair::Ccx(a, b, t) => commutes_past_ccx(g, a, b, t),
        CommutingPair::Ccz(a, b, c) => commutes_past_ccz(g, a, b, c),
    }
}
