// The blocks of a record's padded message, one at a time.
ghost use Rattle.std.specs.Prelude.{◌≡◌, ℕ, ◌+◌, ◌-◌, ◌*◌, ◌/◌, ◌%◌, ◌<◌, ◌≤◌, ◌++◌, length, take, slice_index};
ghost use Rattle.limits.specs.Blocks.{blocks, most_bits};
ghost use Rattle.sm3.specs.Ended.{cut_byte, ended_byte};
ghost use Rattle.sm3.specs.Message.{block_bits, chaining_value, digest_of, message};
ghost use Rattle.sm3.specs.Sm3.{block, expansion};
ghost use Rattle.encoding.specs.Bits.{bit_of_bytes};
ghost use Rattle.encoding.specs.Bytes.{highest_first};
ghost use Rattle.encoding.specs.Packed.{packed_length};
ghost use Rattle.encoding.specs.Sequence.{tab};

use crate::compression::compress;
use crate::constants::start_state;
use crate::expansion::first_words;
use crate::state::State;
use limits::blocks::block_count;
use limits::record::Record;

// The bytes of the record from `at` on, at most 64, with zeros after them; zeros alone where the record ends before.
fn tail(bytes: &[u8], at: usize) -> [u8; 64]
    requires { length bytes.now ≤ at + 64 }
    ensures { result ≡ tab 64 (λ (k : ℕ). slice_index bytes.now (at + k)) }
{
    let rest = &bytes[at.min(bytes.len())..];
    let mut b = [0u8; 64];
    b[..rest.len()].copy_from_slice(rest);
    b
}

// In which byte of the block that begins with byte `at` of the message the record ends.
fn end_place(bits: u64, at: usize) -> usize
    requires { at ≤ bits / 8 }
    ensures { result ≡ bits / 8 - at }
{
    (bits / 8) as usize - at
}

// The byte in which a record ends: its first `used` bits are the record's, then come the bit 1 and zeros.
fn cut_byte(x: u8, used: u64) -> u8
    requires { used < 8 }
    ensures { result ≡ cut_byte used x }
{
    let zeros = 7 - used;
    ((x >> zeros) / 2 * 2 + 1) << zeros
}

// Block i of the message, one that the record does not fill, up to the bit length: the end of the record, the bit 1, zeros.
#[tactic(auto, unfolding(limits::specs::Blocks::blocks))]
fn ended(handed: Record<'_>, i: usize) -> [u8; 64]
    requires { (i < blocks handed.bits) × (handed.bits < 512 * i + 512) }
    ensures { result ≡ tab 64 (λ (k : ℕ). ended_byte handed.entry.bits handed.entry.bytes.now (64 * i + k)) }
{
    let at = 64 * i;
    let mut b = tail(handed.bytes, at);
    if ((handed.bits / 8) as usize) < at {
        return b;
    }
    let end = end_place(handed.bits, at);
    b[end] = cut_byte(b[end], handed.bits % 8);
    b
}

// A block with the bit length of a record in its last eight bytes.
fn with_length(b: [u8; 64], bits: u64) -> [u8; 64]
    ensures { result ≡ take 56 b ++ highest_first 8 bits }
{
    let mut r = b;
    r[56..].copy_from_slice(&bits.to_be_bytes());
    r
}

// Block i of the message, one that the record does not fill, as bytes, in the last block with the bit length.
#[tactic(auto, unfolding(limits::specs::Blocks::blocks))]
fn padded(handed: Record<'_>, i: usize) -> [u8; 64]
    requires { (i < blocks handed.bits) × (handed.bits < 512 * i + 512) }
    ensures { (k : ℕ) → k < 512 → bit_of_bytes result k ≡ block_bits (message handed.entry.bits (bit_of_bytes handed.entry.bytes.now)) i k }
{
    let b = ended(handed, i);
    if ((handed.bits / 8) as usize) < 64 * i + 56 {
        return with_length(b, handed.bits);
    }
    b
}

// Block i of the message, as bytes: the record's own where it fills the block, else they are laid out in `room`.
#[tactic(auto, unfolding(limits::specs::Blocks::blocks))]
fn message_block<'a>(handed: Record<'a>, i: usize, room: &'a mut [u8; 64]) -> &'a [u8; 64]
    requires { i < blocks handed.bits }
    ensures { (k : ℕ) → k < 512 → bit_of_bytes result.now k ≡ block_bits (message handed.entry.bits (bit_of_bytes handed.entry.bytes.now)) i k }
{
    let at = 64 * i;
    if at + 64 <= (handed.bits / 8) as usize {
        return handed.bytes[at..].first_chunk().unwrap();
    }
    *room = padded(handed, i);
    room
}

// W0 to W15 of block i of the message, with room for the words after them.
#[tactic(auto, using(crate::proofs::expansion::FirstWords::expansion_congruent))]
pub fn message_words(handed: Record<'_>, i: usize) -> [u32; 68]
    requires { i < blocks handed.bits }
    ensures { (length result ≡ 68) × (take 16 result ≡ expansion (block_bits (message handed.entry.bits (bit_of_bytes handed.entry.bytes.now)) i) 16) }
{
    let mut room = [0u8; 64];
    first_words(message_block(handed, i, &mut room), 16)
}

// What block i + 1 begins with, where block i begins with v.
#[tactic(auto, using(crate::proofs::expansion::FirstWords::block_congruent))]
fn next_state(v: State, handed: Record<'_>, i: usize) -> State
    requires { i < blocks handed.bits }
    ensures { result ≡ block (block_bits (message handed.entry.bits (bit_of_bytes handed.entry.bytes.now)) i) v }
{
    let mut room = [0u8; 64];
    compress(v, message_block(handed, i, &mut room))
}

// The words held after the first k blocks of the message, in one pass over the record: what block k begins with.
pub fn chaining_value(handed: Record<'_>, k: usize) -> State
    requires { k ≤ blocks handed.bits }
    ensures { result ≡ chaining_value (message handed.entry.bits (bit_of_bytes handed.entry.bytes.now)) k }
{
    let mut v = start_state();
    for i in 0..k {
        v = next_state(v, handed, i);
    }
    v
}

// The digest of a record, as words: what is held after all blocks.
#[tactic(auto, unfolding(crate::specs::Message::digest_of))]
pub fn hash(handed: Record<'_>) -> State
    ensures { result ≡ digest_of handed.entry.bits (bit_of_bytes handed.entry.bytes.now) }
{
    chaining_value(handed, block_count(handed.bits) as usize)
}
