// How long a record may be, and how many blocks its message has.
ghost use Rattle.std.specs.Prelude.{◌≡◌, ◌≤◌};
ghost use Rattle.limits.specs.Blocks.{blocks, most_bits};

// The most bits of a record.
pub const MOST_BITS: u64 = 8127;

// How many blocks the message of a record of so many bits has.
pub fn block_count(bits: u64) -> u64
    requires { bits ≤ most_bits }
    ensures { (result ≡ blocks bits) × (1 ≤ result) × (result ≤ 16) }
{
    (bits + 64) / 512 + 1
}
