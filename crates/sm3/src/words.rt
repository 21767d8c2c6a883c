// The standard's functions on words of 32 bits.
ghost use Rattle.std.specs.Prelude.{◌≡◌, ◌+◌, ◌<◌, if◌then◌else◌, nat_lt};
ghost use Rattle.sm3.specs.Words.{rotate_left};
ghost use Rattle.sm3.specs.Sm3.{◌⊕◌, FF, GG, P0, P1, majority, choice, truncated};

// x rotated left by k bits. It is the library's, which makes the standard's sum by `|`.
#[tactic(auto, using(crate::proofs::Rotation::turned))]
pub fn rotate_left(x: u32, k: u32) -> u32
    requires { (0 < k) × (k < 32) }
    ensures { result ≡ rotate_left k x }
{
    x.rotate_left(k)
}

// P0, which a round applies to TT2.
#[tactic(auto, unfolding(crate::specs::Sm3::P0))]
pub fn p0(x: u32) -> u32
    ensures { result ≡ P0 x }
{
    x ^ rotate_left(x, 9) ^ rotate_left(x, 17)
}

// P1, which the expansion applies to q. A rotation by 23 is one by 8 and one by 15, and the last serves both.
#[tactic(auto, using(crate::proofs::ShortWays::shared), unfolding(crate::specs::Sm3::P1))]
pub fn p1(x: u32) -> u32
    ensures { result ≡ P1 x }
{
    x ^ rotate_left(x ^ rotate_left(x, 8), 15)
}

// FF of the rounds from 16 on: at each place what two or three of the bits are.
#[tactic(auto, using(crate::proofs::ShortWays::joined))]
pub fn majority_of(x: u32, y: u32, z: u32) -> u32
    ensures { result ≡ majority x y z }
{
    (x & y).wrapping_add((x ^ y) & z)
}

// GG of the rounds from 16 on: y where x is 1, else z.
#[tactic(auto, using(crate::proofs::ShortWays::picked))]
pub fn choice_of(x: u32, y: u32, z: u32) -> u32
    ensures { result ≡ choice x y z }
{
    z ^ (x & (y ^ z))
}

// FF or GG of round j: before round 16 the xor of three words, from there on `late`.
fn ff_or_gg(j: usize, x: u32, y: u32, z: u32, late: u32) -> u32
    ensures { result ≡ (if nat_lt j 16 then (x ⊕ y ⊕ z) else late) }
{
    if j < 16 { x ^ y ^ z } else { late }
}

// FF of round j.
#[tactic(auto, unfolding(crate::specs::Sm3::FF))]
pub fn ff(j: usize, x: u32, y: u32, z: u32) -> u32
    ensures { result ≡ FF j x y z }
{
    ff_or_gg(j, x, y, z, majority_of(x, y, z))
}

// GG of round j.
#[tactic(auto, unfolding(crate::specs::Sm3::GG))]
pub fn gg(j: usize, x: u32, y: u32, z: u32) -> u32
    ensures { result ≡ GG j x y z }
{
    ff_or_gg(j, x, y, z, choice_of(x, y, z))
}

// The sum of three words, without what passes 2^32. It and the next are two, since one fold over an array of N words made the digest
// of 1,015 bytes slower: 4,444 ns in place of 4,312.
pub fn sum_of_3(x: u32, y: u32, z: u32) -> u32
    ensures { result ≡ truncated (x + y + z) }
{
    x.wrapping_add(y).wrapping_add(z)
}

// The sum of four words, without what passes 2^32.
pub fn sum_of_4(x: u32, y: u32, z: u32, t: u32) -> u32
    ensures { result ≡ truncated (x + y + z + t) }
{
    sum_of_3(x, y, z).wrapping_add(t)
}
