// May-pass for gates that share a wire with the pair, by their records: one choice by kind for all four pairs.
ghost use Rattle.std.specs.Prelude.{◌≡◌};
ghost use Rattle.passing.specs.Quick.{past_of, off_by, passes_by};

use gates::records::Record;
use leaves::pairs::CommutingPair;

// A pair's wires as a gate that meets it sees them: its target, which no wire is where it has none, and the wires that it
// only reads. The target is no Option: `passes_by` would answer otherwise of the largest word.
#[derive(Clone, Copy)]
pub struct Past {
    pub cnot: bool,
    pub target: u32,
    pub first: u32,
    pub second: u32,
    pub third: u32,
}

#[tactic(auto, unfolding(crate::specs::Quick::past_of))]
pub fn past_of(pair: CommutingPair) -> Past
    ensures { result ≡ past_of pair }
{
    match pair {
        CommutingPair::Cnot(c, t) => Past {
            cnot: true,
            target: t.0,
            first: c.0,
            second: c.0,
            third: c.0,
        },
        CommutingPair::Cz(a, b) => Past {
            cnot: false,
            target: 4294967295,
            first: a.0,
            second: b.0,
            third: b.0,
        },
        CommutingPair::Ccx(a, b, t) => Past {
            cnot: false,
            target: t.0,
            first: a.0,
            second: b.0,
            third: b.0,
        },
        CommutingPair::Ccz(a, b, c) => Past {
            cnot: false,
            target: 4294967295,
            first: a.0,
            second: b.0,
            third: c.0,
        },
    }
}

// Whether a wire is none of those that the pair only reads.
fn off(p: Past, w: u32) -> bool
    ensures { result ≡ off_by p w }
{
    (w != p.first) & (w != p.second) & (w != p.third)
}

// Whether the gate of a record may pass.
#[tactic(auto, unfolding(crate::specs::Quick::passes_by))]
pub fn may_pass(p: Past, r: Record) -> bool
    ensures { result ≡ passes_by p r }
{
    let kind = r.kind;
    match kind {
        2..=6 => r.first != p.target,
        8 => (r.first != p.target) & off(p, r.second),
        9 => (r.first != p.target) & (r.second != p.target),
        11 => (r.first != p.target) & (r.second != p.target) & (r.third != p.target),
        0 => off(p, r.first),
        10 => !p.cnot & (r.first != p.target) & (r.second != p.target) & off(p, r.third),
        _ => false,
    }
}
