// Numbers of a line, each ended by a byte of its own.
ghost use Rattle.std.specs.Prelude.{◌≡◌, drop};
ghost use Rattle.text.specs.Field.{continues, field_of};

use crate::decimal::is_digit;

// A number at the front of some bytes, and how many of them it takes with the byte after it.
#[derive(Clone, Copy, Debug, PartialEq, Eq)]
pub struct Field {
    pub value: u64,
    pub bytes: usize,
}

// Whether c is a digit that may follow n digits of the value v: the number stays below 1,000,000,000 and has no leading
// zero.
#[tactic(auto, unfolding(crate::specs::Field::continues))]
fn is_next_digit(v: u64, n: usize, c: u8) -> bool
    ensures { result ≡ continues v n c }
{
    is_digit(c) && v < 100000000 && (n == 0 || 0 < v)
}

// The number from `at` on that the byte `stop` ends.
pub fn read_field(s: &[u8], at: usize, stop: u8) -> Option<Field>
    ensures { result ≡ field_of stop (drop at s.now) }
{
    let mut value: u64 = 0;
    for (n, &c) in s.get(at..)?.iter().enumerate() {
        if c == stop {
            return (0 < n).then_some(Field {
                value,
                bytes: n + 1,
            });
        }
        if !is_next_digit(value, n, c) {
            return None;
        }
        value = 10 * value + u64::from(c - b'0');
    }
    None
}
