// Bytes that are written in lower-case hexadecimal digits.
ghost use Rattle.std.specs.Prelude.{true, ◌≡◌, ◌+◌, ◌*◌, ◌<◌, get_or, length};
ghost use Rattle.text.specs.Hex.{all_hex, bytes_of_hex, hex_value, is_hex};

use crate::decimal::is_digit_or;

// Whether c is a digit.
#[tactic(auto, unfolding(crate::specs::Hex::is_hex))]
pub fn is_hex_digit(c: u8) -> bool
    ensures { result ≡ is_hex c }
{
    is_digit_or(b'a', b'f', c)
}

// Whether n digits stand from `at` on.
pub fn all_hex(s: &[u8], at: usize, n: usize) -> bool
    ensures { result ≡ all_hex n s.now at }
{
    if n == 0 {
        return true;
    }
    if s.len().saturating_sub(at) < n {
        return false;
    }
    s[at..at + n].iter().all(|&c| is_hex_digit(c))
}

// The value of a digit.
fn hex_value(c: u8) -> u8
    requires { is_hex c ≡ true }
    ensures { (result ≡ hex_value c) × (result < 16) }
{
    if c < b'a' { c - b'0' } else { c - b'a' + 10 }
}

// The byte that the two digits from `at` on write.
fn byte_of_hex(s: &[u8], at: usize) -> u8
    requires { (is_hex (get_or s.now at 0) ≡ true) × (is_hex (get_or s.now (at + 1) 0) ≡ true) }
    ensures { result ≡ 16 * hex_value (get_or s.now at 0) + hex_value (get_or s.now (at + 1) 0) }
{
    let high = hex_value(s[at]);
    let low = hex_value(s[at + 1]);
    16 * high + low
}

// The bytes that the digits from `at` on write, as many as `out` has.
pub fn put_bytes_of_hex(s: &[u8], at: usize, out: &mut [u8])
    requires { all_hex (2 * length out.old) s.now at ≡ true }
    ensures { out.new ≡ bytes_of_hex (length out.old) s.now at }
{
    for (k, byte) in out.iter_mut().enumerate() {
        *byte = byte_of_hex(s, at + 2 * k);
    }
}
