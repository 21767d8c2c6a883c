// Bits packed into whole bytes.
ghost use Rattle.std.specs.Prelude.{◌≡◌, ◌<◌, ◌^◌, length};
ghost use Rattle.encoding.specs.Packed.{packed_length, spare_bits};

// How many bytes n bits are packed into.
pub fn packed_length(n: u64) -> u64
    requires { n < 2 ^ 32 }
    ensures { result ≡ packed_length n }
{
    n.div_ceil(8)
}

// The spare bits behind n bits, as a number: the low bits of the last byte.
pub fn spare_bits(n: u64, packed: &[u8]) -> u64
    requires { length packed.now ≡ packed_length n }
    ensures { result ≡ spare_bits n packed.now }
{
    let used = n % 8;
    if used == 0 {
        return 0;
    }
    let at = (n / 8) as usize;
    u64::from(packed[at]) % (1 << (8 - used))
}
