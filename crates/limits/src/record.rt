// A record that is in range.
ghost use Rattle.std.specs.Prelude.{◌≡◌, ◌≤◌, length};
ghost use Rattle.limits.specs.Blocks.{most_bits};
ghost use Rattle.encoding.specs.Packed.{packed_length};

// So many bits, packed into as many whole bytes as they take.
#[derive(Clone, Copy)]
pub struct Record<'a> {
    pub bits: u64,
    pub bytes: &'a [u8],
    pub ghost in_range: { bits ≤ most_bits },
    pub ghost packed: { length bytes.now ≡ packed_length bits },
}
