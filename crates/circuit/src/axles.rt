// The rows that the circuit of axles between two bounds appends to a record's.
ghost use Rattle.std.specs.Prelude.{◌≡◌, ◌<◌};
ghost use Rattle.circuit.specs.Axles.{axle_form, axles, digit_of, high_half};
ghost use Rattle.forms.specs.Terms.{Fit};

use crate::band::Band;
use forms::form::{Bound, Digits, Form};
use forms::word_form::subtracted;
use refusal::numbers::WireNumber;

// The bits of a record with axles: those of a passage's 63 bytes.
pub const AXLE_BITS: u64 = 504;

// The first wires of the bytes that are the tens and the units of the axles.
const TENS_BYTE: u64 = 649;

const UNITS_BYTE: u64 = 657;

// The first wires of 9 less the tens, 9 less the units, the axles less the lower bound, and the upper bound less the axles.
pub const TENS_LEFT: u64 = 45569;

pub const UNITS_LEFT: u64 = 45573;

pub const ABOVE_LOWER: u64 = 45577;

pub const BELOW_UPPER: u64 = 45584;

// The digit of a byte: its low half.
fn digit_of(byte: WireNumber) -> Digits
    requires { byte.0 < 1000 }
    ensures { result ≡ digit_of byte.0 }
{
    Digits {
        units: WireNumber(byte.0 + 4),
        tens: None,
    }
}

// The two digits of the axles.
fn axle_digits() -> Digits
    ensures { result ≡ axles }
{
    Digits {
        units: WireNumber(UNITS_BYTE + 4),
        tens: Some(WireNumber(TENS_BYTE + 4)),
    }
}

// Line l of the high half of a digit's byte, which is 3.
#[tactic(auto, unfolding(crate::specs::Axles::high_half, forms::specs::WordWires::number_wires))]
fn high_half(byte: WireNumber, l: u64) -> Form
    requires { (byte.0 < 1000) × (l < 4) }
    ensures { (result ≡ high_half byte.0 l) × Fit result }
{
    Form::Fixed {
        w: WireNumber(byte.0 + l),
        bit: (3 >> (3 - l)) % 2,
    }
}

// Row k of those that are appended for a band.
#[tactic(auto, unfolding(crate::specs::Axles::axle_form, encoding::specs::Sequence::beside))]
pub fn axle_form(band: Band, k: u64) -> Form
    requires { k < 34 }
    ensures { (result ≡ axle_form band.lower band.upper k) × Fit result }
{
    let tens = WireNumber(TENS_BYTE);
    let units = WireNumber(UNITS_BYTE);
    match k {
        0..4 => high_half(tens, k),
        4..8 => high_half(units, k - 4),
        8..13 => subtracted(
            digit_of(tens),
            Bound::Upper(9),
            4,
            WireNumber(TENS_LEFT),
            k - 8,
        ),
        13..18 => subtracted(
            digit_of(units),
            Bound::Upper(9),
            4,
            WireNumber(UNITS_LEFT),
            k - 13,
        ),
        18..26 => subtracted(
            axle_digits(),
            Bound::Lower(band.lower),
            7,
            WireNumber(ABOVE_LOWER),
            k - 18,
        ),
        _ => subtracted(
            axle_digits(),
            Bound::Upper(band.upper),
            7,
            WireNumber(BELOW_UPPER),
            k - 26,
        ),
    }
}
