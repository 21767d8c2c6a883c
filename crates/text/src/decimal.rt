// Numbers in decimal: their digits, and how they are written into a lent buffer.
ghost use Rattle.std.specs.Prelude.{◌≡◌, ◌+◌, ◌≤◌, length};
ghost use Rattle.text.specs.Decimal.{decimal, field, is_digit, is_digit_or};
ghost use Rattle.text.specs.Put.{Put};

// Whether c is a digit.
#[tactic(auto, unfolding(crate::specs::Decimal::is_digit))]
pub fn is_digit(c: u8) -> bool
    ensures { result ≡ is_digit c }
{
    c.is_ascii_digit()
}

// Whether c is a digit, or a letter from `first` to `last`.
#[tactic(auto, unfolding(crate::specs::Decimal::is_digit_or))]
pub fn is_digit_or(first: u8, last: u8, c: u8) -> bool
    ensures { result ≡ is_digit_or first last c }
{
    is_digit(c) || (first <= c && c <= last)
}

// The digits of x from `at` on. By hand, since `write!` would want a writer over the buffer, with a contract of its own.
pub fn put_decimal(out: &mut [u8], at: usize, x: u64) -> usize
    requires { at + 20 ≤ length out.old }
    ensures { Put out.old at (decimal x) out.new result × (result ≤ at + 20) }
{
    if x < 10 {
        out[at] = b'0' + x as u8;
        return at + 1;
    }
    let last = put_decimal(out, at, x / 10);
    out[last] = b'0' + (x % 10) as u8;
    last + 1
}

// The digits of x and the byte `stop` after them, from `at` on.
pub fn put_field(out: &mut [u8], at: usize, x: u64, stop: u8) -> usize
    requires { at + 21 ≤ length out.old }
    ensures { Put out.old at (field x stop) out.new result × (result ≤ at + 21) }
{
    let end = put_decimal(out, at, x);
    out[end] = stop;
    end + 1
}
