// The record that programs try the operations on.
#![tactic(auto)]

ghost use Rattle.std.specs.Prelude.{◌≡◌, ◌≤◌, length};
ghost use Rattle.limits.specs.Blocks.{most_bits};

// The bytes of the longest record.
pub const MOST_BYTES: usize = 1016;

// The bytes of a record of so many bits, and bytes behind them: byte k is k mod 251, but that the bits after the record's last
// are 0 in its byte.
pub fn counted(bits: u64) -> [u8; MOST_BYTES]
    requires { bits ≤ most_bits }
    ensures { length result ≡ 1016 }
{
    let mut bytes: [u8; MOST_BYTES] = std::array::from_fn(|k| (k % 251) as u8);
    let end = (bits / 8) as usize;
    bytes[end] &= !(0xff >> (bits % 8));
    bytes
}
