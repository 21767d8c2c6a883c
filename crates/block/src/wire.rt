// Where the words of a block stand: those that it makes, by its first wire alone, and A to H, also by where it begins.
ghost use Rattle.std.specs.Prelude.{◌≡◌, ◌+◌, ◌<◌, ◌≤◌};
ghost use Rattle.block.specs.Bounds.{BlockAt, stands_before};
ghost use Rattle.block.specs.StepForms.{ss1};
ghost use Rattle.block.specs.Wires.{state_word, q_first, result_first, round_width, u_first, w_first, w_prime_first};
ghost use Rattle.forms.specs.Bounds.{Small, Within};
ghost use Rattle.forms.specs.Positions.{standing};

use crate::placed::Block;
use forms::position::{WordPosition, rotated, word_from};
use refusal::numbers::WireNumber;

// How many wires a block has.
pub const BLOCK_WIRES: u64 = 22528;

// Where q, P1(q) and Wj begin in a block, for j from 16 on: after its 512 bits.
pub const EXPANSION: u64 = 512;

// How many wires q, P1(q) and Wj have.
pub const EXPANSION_WIDTH: u64 = 96;

// Where the words W'j begin in a block.
pub const W_PRIMES: u64 = 5504;

// Where the rounds begin in a block.
pub const ROUNDS: u64 = 7552;

// How many wires a round has.
pub const ROUND_WIDTH: u64 = 230;

// Where the result begins in a block.
pub const RESULT: u64 = 22272;

// Where SS2 begins in a round: after u and its carries. The other words of a round follow.
pub const SS2: u64 = 34;

pub const FF: u64 = 66;

pub const GG: u64 = 98;

pub const TT1: u64 = 130;

pub const TT2: u64 = 164;

pub const P0: u64 = 198;

// The first wire of q, P1(q) and Wj.
pub fn expansion_first(first: WireNumber, j: u64) -> WireNumber
    requires { BlockAt first.0 × (16 ≤ j) × (j < 68) }
    ensures { result.0 ≡ q_first first.0 j }
{
    WireNumber(first.0 + EXPANSION + EXPANSION_WIDTH * (j - 16))
}

// Wj.
pub fn expanded_word(first: WireNumber, j: u64) -> WordPosition
    requires { BlockAt first.0 × (j < 68) }
    ensures { (result ≡ standing (w_first first.0 j)) × Within result }
{
    if j < 16 {
        return word_from(WireNumber(first.0 + 32 * j));
    }
    let q = expansion_first(first, j);
    word_from(WireNumber(q.0 + 64))
}

// W'j.
pub fn w_prime_word(first: WireNumber, j: u64) -> WordPosition
    requires { BlockAt first.0 × (j < 64) }
    ensures { (result ≡ standing (w_prime_first first.0 j)) × Within result }
{
    word_from(WireNumber(first.0 + W_PRIMES + 32 * j))
}

// The first wire of round j, which is that of u.
pub fn round_first(first: WireNumber, j: u64) -> WireNumber
    requires { BlockAt first.0 × (j < 64) }
    ensures { result.0 ≡ u_first first.0 j }
{
    WireNumber(first.0 + ROUNDS + ROUND_WIDTH * j)
}

// A word of round j, by its offset in the round.
pub fn round_word(first: WireNumber, j: u64, offset: u64) -> WordPosition
    requires { BlockAt first.0 × (j < 64) × (offset < round_width) }
    ensures { (result ≡ standing (u_first first.0 j + offset)) × Within result }
{
    let u = round_first(first, j);
    word_from(WireNumber(u.0 + offset))
}

// SS1 of round j, which is u<<<7.
pub fn ss1_word(first: WireNumber, j: u64) -> WordPosition
    requires { BlockAt first.0 × (j < 64) }
    ensures { (result ≡ ss1 first.0 j) × Within result }
{
    rotated(7, word_from(round_first(first, j)))
}

// Word k of the block's result.
pub fn result_word(first: WireNumber, k: u64) -> WordPosition
    requires { BlockAt first.0 × (k < 8) }
    ensures { (result ≡ standing (result_first first.0 k)) × Within result }
{
    word_from(WireNumber(first.0 + RESULT + 32 * k))
}

// The same words of a block that is known to stand where it may, and A to H, which may still be those that it began with.
impl Block {
    pub fn expansion_first(self, j: u64) -> WireNumber
        requires { (16 ≤ j) × (j < 68) }
        ensures { result.0 ≡ q_first self.first.0 j }
    {
        expansion_first(self.first, j)
    }

    pub fn expanded_word(self, j: u64) -> WordPosition
        requires { j < 68 }
        ensures { (result ≡ standing (w_first self.first.0 j)) × Within result }
    {
        expanded_word(self.first, j)
    }

    pub fn w_prime_word(self, j: u64) -> WordPosition
        requires { j < 64 }
        ensures { (result ≡ standing (w_prime_first self.first.0 j)) × Within result }
    {
        w_prime_word(self.first, j)
    }

    pub fn round_first(self, j: u64) -> WireNumber
        requires { j < 64 }
        ensures { result.0 ≡ u_first self.first.0 j }
    {
        round_first(self.first, j)
    }

    pub fn round_word(self, j: u64, offset: u64) -> WordPosition
        requires { (j < 64) × (offset < round_width) }
        ensures { (result ≡ standing (u_first self.first.0 j + offset)) × Within result }
    {
        round_word(self.first, j, offset)
    }

    pub fn ss1_word(self, j: u64) -> WordPosition
        requires { j < 64 }
        ensures { (result ≡ ss1 self.first.0 j) × Within result }
    {
        ss1_word(self.first, j)
    }

    pub fn result_word(self, k: u64) -> WordPosition
        requires { k < 8 }
        ensures { (result ≡ standing (result_first self.first.0 k)) × Within result }
    {
        result_word(self.first, k)
    }

    // The first wire of word k of A to H before round j. A to D move on by one place a round, and so do E to H: a word is either
    // still one of those that the block began with, or the TT1 or P0(TT2) of an earlier round.
    #[tactic(auto, using(crate::proofs::wire::Placed::begun_first, crate::proofs::wire::Placed::made_first))]
    fn origin(self, k: u64, j: u64) -> WireNumber
        requires { (k < 8) × (j ≤ 64) }
        ensures { (result.0 ≡ (state_word (stands_before self.first.0 self.begin.0 j) k).first.0) × Small result.0 }
    {
        let half = k / 4;
        let lag = k % 4;
        if j <= lag {
            return WireNumber(self.begin.0 + 128 * half + 32 * (lag - j));
        }
        WireNumber(self.first.0 + ROUNDS + TT1 + (P0 - TT1) * half + ROUND_WIDTH * (j - 1 - lag))
    }

    // Word k of A to H before round j: it is rotated once, on its way from the second place of its four to the third.
    #[tactic(auto, using(crate::proofs::wire::Placed::straight_word, crate::proofs::wire::Placed::early_word, crate::proofs::wire::Placed::rotated_word))]
    pub fn word_before(self, k: u64, j: u64) -> WordPosition
        requires { (k < 8) × (j ≤ 64) }
        ensures { (result ≡ state_word (stands_before self.first.0 self.begin.0 j) k) × Within result }
    {
        let word = word_from(self.origin(k, j));
        let lag = k % 4;
        if lag < 2 || j + 2 <= lag {
            return word;
        }
        rotated(9 + 10 * (k / 4), word)
    }
}
