// Gates and their records: what every other crate stands on.
#![tactic(auto)]

pub mod kinds;
pub mod records;
pub mod words;

// A wire, a classical bit and a list position are all small whole numbers; three types keep them apart.
#[derive(Clone, Copy, PartialEq, Eq, PartialOrd, Ord)]
pub struct Wire(pub u32);

#[derive(Clone, Copy, PartialEq, Eq, PartialOrd, Ord)]
pub struct Bit(pub u32);

#[derive(Clone, Copy, PartialEq, Eq, PartialOrd, Ord)]
pub struct Position(pub u32);

// The kinds without an angle, in the order and with the fields of the source's enum `Gate`.
#[derive(Clone, Copy, PartialEq, Eq)]
pub enum Gate {
    X(Wire),
    H(Wire),
    S(Wire),
    Sdg(Wire),
    Z(Wire),
    T(Wire),
    Tdg(Wire),
    Cnot {
        control: Wire,
        target: Wire,
    },
    Cz {
        control: Wire,
        target: Wire,
    },
    Ccx {
        control1: Wire,
        control2: Wire,
        target: Wire,
    },
    Ccz {
        control1: Wire,
        control2: Wire,
        target: Wire,
    },
    Measure {
        qubit: Wire,
        cbit: Bit,
    },
    Reset(Wire),
    Y(Wire),
    Sx(Wire),
    Swap(Wire, Wire),
    Cy {
        control: Wire,
        target: Wire,
    },
    Ch {
        control: Wire,
        target: Wire,
    },
    Cswap {
        control: Wire,
        first: Wire,
        second: Wire,
    },
}
