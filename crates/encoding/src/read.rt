// Numbers and bits read from bytes.
ghost use Rattle.std.specs.Prelude.{◌≡◌, ℕ, ◌+◌, ◌*◌, ◌<◌, ◌≤◌, ◌^◌, length};
ghost use Rattle.encoding.specs.Bits.{bit_of_bytes, number};
ghost use Rattle.encoding.specs.Bytes.{from_least_first};

// The word that the 32 bits of the four bytes from `at` on write.
pub fn word_at(bytes: &[u8], at: usize) -> u32
    requires { at + 4 ≤ length bytes.now }
    ensures { result ≡ number 32 (λ (i : ℕ). bit_of_bytes bytes.now (8 * at + i)) }
{
    u32::from_be_bytes(*bytes[at..].first_chunk().unwrap())
}

// The number that four bytes from `at` on write, the least first.
pub fn four_bytes(bytes: &[u8], at: usize) -> u64
    requires { at + 4 ≤ length bytes.now }
    ensures { (result ≡ from_least_first 4 bytes.now at) × (result < 2 ^ 32) }
{
    u64::from(u32::from_le_bytes(*bytes[at..].first_chunk().unwrap()))
}

// The number that eight bytes from `at` on write, the least first. They are compiled to one load.
pub fn eight_bytes(bytes: &[u8], at: usize) -> u64
    requires { at + 8 ≤ length bytes.now }
    ensures { result ≡ from_least_first 8 bytes.now at }
{
    u64::from_le_bytes(*bytes[at..].first_chunk().unwrap())
}

// Bit k of some bytes, the highest bit of a byte first.
pub fn bit_at(bytes: &[u8], k: u64) -> u64
    requires { k < 8 * length bytes.now }
    ensures { result ≡ bit_of_bytes bytes.now k }
{
    let at = (k / 8) as usize;
    (u64::from(bytes[at]) >> (7 - k % 8)) % 2
}
