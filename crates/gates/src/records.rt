// Records to gates or to their refusal, and back.
ghost use Rattle.std.specs.Prelude.{◌≡◌, ◌+◌, ◌*◌, ◌≤◌, ◌<◌, ◌^◌, length};
ghost use Rattle.std.proofs.lemmas.List.Edits.{sets};
ghost use Rattle.gates.specs.Records.{record_at, named_by, gate_of, record_of, record_bytes, used_of, unused_of, all_zero, with_words};

use crate::{Bit, Gate, Position, Wire, kinds, words};

// The fields of a record, in the order of its bytes. The kind stays the number that a list holds: document 01 asks for a match on
// it, and the sweeps decide by it, since to decode each gate costs more (DECISIONS 53).
#[derive(Clone, Copy, PartialEq, Eq)]
pub struct Record {
    pub kind: u8,
    pub padding: u32,
    pub first: u32,
    pub second: u32,
    pub third: u32,
}

// Why a record is no gate: its kind carries an angle, or is none, or an unused byte or word is not zero.
#[derive(Clone, Copy, PartialEq, Eq)]
pub enum NoGate {
    Angle,
    Unknown,
    NotZero,
}

// The record at a position of a list.
#[tactic(auto, using(crate::proofs::WordLaws::record_read))]
pub fn record_at(bytes: &[u8], place: Position) -> Record
    requires { 16 * place.0 + 16 ≤ length bytes.now }
    ensures { result ≡ record_at bytes.now place.0 }
{
    let at = 16 * (place.0 as usize);
    let head = words::word_at(bytes, at);
    Record {
        kind: (head % 256) as u8,
        padding: head / 256,
        first: words::word_at(bytes, at + 4),
        second: words::word_at(bytes, at + 8),
        third: words::word_at(bytes, at + 12),
    }
}

// Writes a record at a position of a list.
#[tactic(auto, using(crate::proofs::WordLaws::record_stored))]
pub fn put_record(bytes: &mut [u8], place: Position, r: Record)
    requires { (16 * place.0 + 16 ≤ length bytes.old) × (r.padding < 2 ^ 24) }
    ensures { bytes.new ≡ sets bytes.old (16 * place.0) (record_bytes r) }
{
    let at = 16 * (place.0 as usize);
    words::put_word(bytes, at, (r.kind as u32) + 256 * r.padding);
    words::put_word(bytes, at + 4, r.first);
    words::put_word(bytes, at + 8, r.second);
    words::put_word(bytes, at + 12, r.third);
}

// The gate that a kind number and three words name; a measure's second word is its bit.
#[tactic(auto, unfolding(crate::specs::Records::named_by, crate::specs::Kinds::shape_of, crate::specs::Kinds::shapes))]
fn named_by(kind: u8, a: Wire, b: Wire, c: Wire) -> Result<Gate, NoGate>
    ensures { result ≡ named_by kind a.0 b.0 c.0 }
{
    match kind {
        0 => Ok(Gate::X(a)),
        1 => Ok(Gate::H(a)),
        2 => Ok(Gate::S(a)),
        3 => Ok(Gate::Sdg(a)),
        4 => Ok(Gate::Z(a)),
        5 => Ok(Gate::T(a)),
        6 => Ok(Gate::Tdg(a)),
        8 => Ok(Gate::Cnot {
            control: a,
            target: b,
        }),
        9 => Ok(Gate::Cz {
            control: a,
            target: b,
        }),
        10 => Ok(Gate::Ccx {
            control1: a,
            control2: b,
            target: c,
        }),
        11 => Ok(Gate::Ccz {
            control1: a,
            control2: b,
            target: c,
        }),
        12 => Ok(Gate::Measure {
            qubit: a,
            cbit: Bit(b.0),
        }),
        13 => Ok(Gate::Reset(a)),
        15 => Ok(Gate::Y(a)),
        16 => Ok(Gate::Sx(a)),
        19 => Ok(Gate::Swap(a, b)),
        20 => Ok(Gate::Cy {
            control: a,
            target: b,
        }),
        25 => Ok(Gate::Ch {
            control: a,
            target: b,
        }),
        26 => Ok(Gate::Cswap {
            control: a,
            first: b,
            second: c,
        }),
        7 | 14 | 17..=18 | 21..=24 => Err(NoGate::Angle),
        27..=255 => Err(NoGate::Unknown),
    }
}

// Whether bytes 1 to 3 and the unused words are zero.
#[tactic(auto, using(crate::proofs::RecordLaws::unused_by_count))]
fn unused_are_zero(r: Record) -> bool
    requires { r.kind < 27 }
    ensures { result ≡ all_zero (unused_of r) }
{
    let used = words_used(r.kind);
    (r.padding == 0) & ((2 <= used) | (r.second == 0)) & ((3 <= used) | (r.third == 0))
}

// How many words a kind uses: its wires, and the bit of a measure.
#[tactic(auto, using(crate::proofs::RecordLaws::row_small, crate::proofs::RecordLaws::used_wires), unfolding(crate::specs::Records::used_of))]
fn words_used(kind: u8) -> u8
    requires { kind < 27 }
    ensures { (result ≡ used_of kind) × (1 ≤ result) × (result ≤ 3) }
{
    if kind == 12 {
        2
    } else {
        kinds::row_of(kind).operands
    }
}

impl TryFrom<Record> for Gate {
    type Error = NoGate;

    ghost try_from_gives = { λ r g. g ≡ gate_of r };

    // The gate of a record, or why it is none.
    #[tactic(auto, using(crate::proofs::RecordLaws::gate_kind, crate::proofs::RecordLaws::gate_refused), unfolding(crate::specs::Records::gate_of))]
    fn try_from(r: Record) -> Result<Gate, NoGate> {
        let gate = named_by(r.kind, Wire(r.first), Wire(r.second), Wire(r.third))?;
        if unused_are_zero(r) {
            Ok(gate)
        } else {
            Err(NoGate::NotZero)
        }
    }
}

impl From<Gate> for Record {
    ghost from_gives = { λ g r. r ≡ record_of g };

    // The record of a gate.
    #[tactic(auto, unfolding(crate::specs::Records::record_of))]
    fn from(g: Gate) -> Record {
        match g {
            Gate::X(w) => with_words(0, w.0, 0, 0),
            Gate::H(w) => with_words(1, w.0, 0, 0),
            Gate::S(w) => with_words(2, w.0, 0, 0),
            Gate::Sdg(w) => with_words(3, w.0, 0, 0),
            Gate::Z(w) => with_words(4, w.0, 0, 0),
            Gate::T(w) => with_words(5, w.0, 0, 0),
            Gate::Tdg(w) => with_words(6, w.0, 0, 0),
            Gate::Cnot { control, target } => with_words(8, control.0, target.0, 0),
            Gate::Cz { control, target } => with_words(9, control.0, target.0, 0),
            Gate::Ccx {
                control1,
                control2,
                target,
            } => with_words(10, control1.0, control2.0, target.0),
            Gate::Ccz {
                control1,
                control2,
                target,
            } => with_words(11, control1.0, control2.0, target.0),
            Gate::Measure { qubit, cbit } => with_words(12, qubit.0, cbit.0, 0),
            Gate::Reset(w) => with_words(13, w.0, 0, 0),
            Gate::Y(w) => with_words(15, w.0, 0, 0),
            Gate::Sx(w) => with_words(16, w.0, 0, 0),
            Gate::Swap(a, b) => with_words(19, a.0, b.0, 0),
            Gate::Cy { control, target } => with_words(20, control.0, target.0, 0),
            Gate::Ch { control, target } => with_words(25, control.0, target.0, 0),
            Gate::Cswap {
                control,
                first,
                second,
            } => with_words(26, control.0, first.0, second.0),
        }
    }
}

// A record whose bytes 1 to 3 are zero.
fn with_words(kind: u8, first: u32, second: u32, third: u32) -> Record
    ensures { result ≡ with_words kind first second third }
{
    Record {
        kind,
        padding: 0,
        first,
        second,
        third,
    }
}
