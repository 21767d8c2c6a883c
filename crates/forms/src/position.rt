// Wires, and where a word stands on them.
ghost use Rattle.std.specs.Prelude.{◌≡◌, ◌+◌, ◌<◌};
ghost use Rattle.forms.specs.Bounds.{Small, Within};
ghost use Rattle.forms.specs.Positions.{at, rotated_by, standing, wire_at};

use refusal::numbers::WireNumber;

// The 32 wires of a word, rotated left by `rotation` bits: bit i, from the highest, is wire first + (i + rotation) mod 32.
#[derive(Clone, Copy, Debug, PartialEq, Eq)]
pub struct WordPosition {
    pub first: WireNumber,
    pub rotation: u64,
}

// The wire that is i past w.
pub fn wire_past(w: WireNumber, i: u64) -> WireNumber
    requires { Small w.0 × Small i }
    ensures { result ≡ at w i }
{
    WireNumber(w.0 + i)
}

// The wire of a word's bit i.
pub fn wire_of_bit(x: WordPosition, i: u64) -> WireNumber
    requires { Within x × (i < 32) }
    ensures { result ≡ wire_at x i }
{
    WireNumber(x.first.0 + (i + x.rotation) % 32)
}

// A word that stands from wire w on.
pub fn word_from(w: WireNumber) -> WordPosition
    requires { Small w.0 }
    ensures { (result ≡ standing w.0) × Within result }
{
    WordPosition {
        first: w,
        rotation: 0,
    }
}

// A word rotated left by k bits.
pub fn rotated(k: u64, x: WordPosition) -> WordPosition
    requires { (k < 32) × Within x }
    ensures { (result ≡ rotated_by k x) × Within result }
{
    WordPosition {
        first: x.first,
        rotation: (x.rotation + k) % 32,
    }
}
