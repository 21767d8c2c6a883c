// Numbers written into a lent buffer as bytes.
ghost use Rattle.std.specs.Prelude.{◌+◌, ◌≤◌, length};
ghost use Rattle.encoding.specs.Bytes.{highest_first, least_first};
ghost use Rattle.encoding.specs.Written.{Written};

// The four bytes of a word from `at` on, the highest first.
pub fn put_word(out: &mut [u8], at: usize, w: u32)
    requires { at + 4 ≤ length out.old }
    ensures { Written at (highest_first 4 w) out.old out.new }
{
    out[at..at + 4].copy_from_slice(&w.to_be_bytes());
}

// The n lowest bytes of x from `at` on, the least first.
pub fn put_number(out: &mut [u8], at: usize, n: usize, x: u64)
    requires { at + n ≤ length out.old }
    ensures { Written at (least_first n x) out.old out.new }
{
    let mut left = x;
    for byte in out[at..at + n].iter_mut() {
        *byte = (left % 256) as u8;
        left /= 256;
    }
}

// The eight bytes of x from `at` on, the least first. They are compiled to one store.
pub fn put_eight_bytes(out: &mut [u8], at: usize, x: u64)
    requires { at + 8 ≤ length out.old }
    ensures { Written at (least_first 8 x) out.old out.new }
{
    out[at..at + 8].copy_from_slice(&x.to_le_bytes());
}
