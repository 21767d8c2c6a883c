// The row forms, which name the wires of a row, and the terms of a row.
ghost use Rattle.std.specs.Prelude.{◌≡◌};
ghost use Rattle.forms.specs.Rows.{bound_value, is_lower};

use crate::position::WordPosition;
use refusal::numbers::WireNumber;

// A wire and the residue of its coefficient modulo p.
#[derive(Clone, Copy, Debug, PartialEq, Eq)]
pub struct Term {
    pub wire: WireNumber,
    pub residue: u64,
}

// Two words that are added up, and two more where there are four.
#[derive(Clone, Copy, Debug, PartialEq, Eq)]
pub struct Addends {
    pub x: WordPosition,
    pub y: WordPosition,
    pub more: Option<(WordPosition, WordPosition)>,
}

// A digit on four wires, from its highest bit on, and where a number has two digits its tens.
#[derive(Clone, Copy, Debug, PartialEq, Eq)]
pub struct Digits {
    pub units: WireNumber,
    pub tens: Option<WireNumber>,
}

// A bound on a number. What lies between them is the number less its lower bound, or its upper bound less the number.
#[derive(Clone, Copy, Debug, PartialEq, Eq)]
pub enum Bound {
    Lower(u64),
    Upper(u64),
}

impl Bound {
    pub fn is_lower(self) -> bool
        ensures { result ≡ is_lower self }
    {
        match self {
            Bound::Lower(_) => true,
            Bound::Upper(_) => false,
        }
    }

    // The bound itself.
    pub fn value(self) -> u64
        ensures { result ≡ bound_value self }
    {
        match self {
            Bound::Lower(k) => k,
            Bound::Upper(k) => k,
        }
    }
}

// One row's equation, in the letters of the layout.
#[derive(Clone, Copy, Debug, PartialEq, Eq)]
pub enum Form {
    // w × 1 = bit
    Fixed {
        w: WireNumber,
        bit: u64,
    },
    // w × (w - 1) = 0
    Bit {
        w: WireNumber,
    },
    // 2x × y = x + y - r
    XorOfTwo {
        x: WireNumber,
        y: WireNumber,
        r: WireNumber,
    },
    // (x + y + z - r) × (x + y + z - r - 2) = 0
    XorOfThree {
        x: WireNumber,
        y: WireNumber,
        z: WireNumber,
        r: WireNumber,
    },
    // (x + y + z - 2r) × (1 - x - y - z + 2r) = 0
    Majority {
        x: WireNumber,
        y: WireNumber,
        z: WireNumber,
        r: WireNumber,
    },
    // x × (y - z) = r - z
    Choice {
        x: WireNumber,
        y: WireNumber,
        z: WireNumber,
        r: WireNumber,
    },
    // (addends + constant - result - carries) × 1 = 0, the result's 32 wires and then its carries from r on
    Sum {
        addends: Addends,
        constant: u64,
        r: WireNumber,
    },
    // (x - y) × 1 = 0
    Equal {
        x: WireNumber,
        y: WireNumber,
    },
    // (digits - bound - bits) × 1 = 0 of a lower bound, (bound - digits - bits) × 1 = 0 of an upper one: the bits are `width`
    // wires from r on
    Difference {
        digits: Digits,
        bound: Bound,
        width: u64,
        r: WireNumber,
    },
}
