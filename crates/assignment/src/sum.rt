// The sums of a round, as the hash makes them, with the carries that the sum rows have beside.
ghost use Rattle.std.specs.Prelude.{◌≡◌, ◌+◌};
ghost use Rattle.assignment.specs.Sum.{IsSum};
ghost use Rattle.sm3.specs.Sm3.{truncated};

use sm3::words::{sum_of_3, sum_of_4};

// A sum of words: the word that the hash keeps, and what passes 2^32.
#[derive(Clone, Copy)]
pub struct Sum {
    pub word: u32,
    pub carry: u64,
}

// What the hash keeps of a whole sum, and the rest.
fn parted(whole: u64, word: u32) -> Sum
    requires { word ≡ truncated whole }
    ensures { IsSum result whole }
{
    Sum {
        word,
        carry: (whole - word as u64) / 4294967296,
    }
}

// The sum of three words. It and the next are two, as are the hash's sums from which they take their words.
pub fn add_3(x: u32, y: u32, z: u32) -> Sum
    ensures { IsSum result (x + y + z) }
{
    parted((x as u64) + (y as u64) + (z as u64), sum_of_3(x, y, z))
}

// The sum of four words.
pub fn add_4(x: u32, y: u32, z: u32, t: u32) -> Sum
    ensures { IsSum result (x + y + z + t) }
{
    parted(
        (x as u64) + (y as u64) + (z as u64) + (t as u64),
        sum_of_4(x, y, z, t),
    )
}
