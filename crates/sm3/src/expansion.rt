// The expansion of a block to 68 words.
ghost use Rattle.std.specs.Prelude.{◌≡◌, ◌<◌, ◌≤◌, length, take};
ghost use Rattle.sm3.specs.Sm3.{block_word, expanded, expansion, mixed, next_word};
ghost use Rattle.encoding.specs.Bits.{bit_of_bytes};

use crate::words::{p1, rotate_left};
use encoding::read::word_at;

// Wj of a block, up to W15.
fn block_word(bytes: &[u8; 64], j: usize) -> u32
    requires { j < 16 }
    ensures { result ≡ block_word (bit_of_bytes bytes.now) j }
{
    word_at(bytes, 4 * j)
}

// The first n words of a block, with room for the words after them.
pub fn first_words(bytes: &[u8; 64], n: usize) -> [u32; 68]
    requires { n ≤ 16 }
    ensures { (length result ≡ 68) × (take n result ≡ expansion (bit_of_bytes bytes.now) n) }
{
    let mut w = [0u32; 68];
    for j in 0..n {
        w[j] = block_word(bytes, j);
    }
    w
}

// q of Wj, from the words before it.
#[tactic(auto, unfolding(crate::specs::Sm3::mixed))]
pub fn mixed_word(w: &[u32; 68], j: usize) -> u32
    requires { (16 ≤ j) × (j < 68) }
    ensures { result ≡ mixed w.now j }
{
    w[j - 16] ^ w[j - 9] ^ rotate_left(w[j - 3], 15)
}

// Wj from the words before it.
#[tactic(auto, unfolding(crate::specs::Sm3::expanded))]
fn expanded_word(w: &[u32; 68], j: usize) -> u32
    requires { (16 ≤ j) × (j < 68) }
    ensures { result ≡ expanded w.now j }
{
    p1(mixed_word(w, j)) ^ rotate_left(w[j - 13], 7) ^ w[j - 6]
}

// Wj after the words before it: up to W15 it is the block's.
#[tactic(auto, unfolding(crate::specs::Sm3::next_word))]
pub fn next_word(bytes: &[u8; 64], w: &[u32; 68], j: usize) -> u32
    requires { j < 68 }
    ensures { result ≡ next_word (bit_of_bytes bytes.now) w.now j }
{
    if j < 16 {
        block_word(bytes, j)
    } else {
        expanded_word(w, j)
    }
}
