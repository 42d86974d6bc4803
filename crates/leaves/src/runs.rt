// Gates between two h on a wire.
ghost use Rattle.std.specs.Prelude.{◌≡◌};
ghost use Rattle.rules.specs.Runs.{is_h_on, is_x_on, worth_on};
ghost use Rattle.leaves.specs.Answers.{eighths_of, worth_by};

use gates::{Gate, Wire};

#[tactic(auto, unfolding(gates::specs::Gates::has, gates::specs::Gates::wires_of, gates::specs::Records::record_of))]
pub fn is_h(g: Gate, on: Wire) -> bool
    ensures { result ≡ is_h_on on.0 g }
{
    g == Gate::H(on)
}

#[tactic(auto, unfolding(gates::specs::Gates::has, gates::specs::Gates::wires_of, gates::specs::Records::record_of))]
pub fn is_x(g: Gate, on: Wire) -> bool
    ensures { result ≡ is_x_on on.0 g }
{
    g == Gate::X(on)
}

// What a gate is worth in a run on a wire, in eighth turns; none that is not of the run.
#[tactic(auto, unfolding(gates::specs::Gates::has, gates::specs::Gates::wires_of, rules::specs::Runs::worth))]
pub fn diagonal_k(g: Gate, on: Wire) -> Option<u8>
    ensures { eighths_of result ≡ worth_on on.0 g }
{
    let (w, eighths) = match g {
        Gate::T(w) => (w, 1),
        Gate::S(w) => (w, 2),
        Gate::Z(w) => (w, 4),
        Gate::Sdg(w) => (w, 6),
        Gate::Tdg(w) => (w, 7),
        _ => return None,
    };
    (w == on).then_some(eighths)
}

// What a gate of a kind, by its number, is worth in a run. The worths of the kinds from 0 on are digits to the base 16 of one
// number, since a choice by the kind is guessed wrong most of the time.
#[tactic(auto, unfolding(crate::specs::Answers::worth_by))]
pub fn worth_of(kind: u8) -> Option<u8>
    ensures { eighths_of result ≡ worth_by kind }
{
    if (2 <= kind) & (kind <= 6) {
        let digits: u32 = 118776320;
        Some(((digits >> (4 * (kind as u32))) % 16) as u8)
    } else {
        None
    }
}
