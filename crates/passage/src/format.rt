// What a byte may be at a place of a line.
ghost use Rattle.std.specs.Prelude.{◌≡◌};
ghost use Rattle.passage.specs.Format.{allows, is_plate_byte};

use text::decimal::{is_digit, is_digit_or};
use text::hex::is_hex_digit;

// The kinds of places. They are an enum, and no tests that are handed over, since the definitions tell them apart (`kind_at`).
#[derive(Clone, Copy, Debug, PartialEq, Eq)]
pub enum Kind {
    // A digit of the lane, the time or the axles.
    Digit,
    // The class, a digit that is not 0.
    Class,
    // The first place of the plate.
    PlateFirst,
    // Any other place of the plate.
    PlateNext,
    // A digit of the blind.
    Hex,
    // What parts two fields.
    Comma,
}

// Whether c is a letter or a digit of a plate.
#[tactic(auto, unfolding(crate::specs::Format::is_plate_byte))]
fn is_plate_byte(c: u8) -> bool
    ensures { result ≡ is_plate_byte c }
{
    is_digit_or(b'A', b'Z', c)
}

impl Kind {
    // Whether c may stand at a place of this kind, behind the byte b.
    #[tactic(auto, unfolding(crate::specs::Format::allows, crate::specs::Format::follows, text::specs::Decimal::is_digit))]
    pub fn allows(self, b: u8, c: u8) -> bool
        ensures { result ≡ allows self b c }
    {
        match self {
            Kind::Digit => is_digit(c),
            Kind::Class => matches!(c, b'1'..=b'9'),
            Kind::PlateFirst => is_plate_byte(c),
            Kind::PlateNext => c == b'-' || b != b'-' && is_plate_byte(c),
            Kind::Hex => is_hex_digit(c),
            Kind::Comma => c == b',',
        }
    }
}
