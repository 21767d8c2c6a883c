// Entries written into a lent buffer from a wire on: one value, and the wires of a word, of words one after the other, and of a sum. That the
// buffer has room for them is asked at each, in its own number of wires: a struct of buffer and wire is no plainer, since each call is at another
// wire and would make one.
ghost use Rattle.std.specs.Prelude.{◌≡◌, ℕ, ◌+◌, ◌*◌, ◌<◌, ◌≤◌, length, slice_index};
ghost use Rattle.assignment.specs.Sum.{IsSum};
ghost use Rattle.assignment.specs.Wrote.{Wrote};
ghost use Rattle.block.specs.BlockWires.{state_wires};
ghost use Rattle.encoding.specs.Sequence.{grid};
ghost use Rattle.forms.specs.WordWires.{sum_wires, word_wires};
ghost use Rattle.sm3.specs.Words.{bit};

use crate::sum::Sum;
use encoding::write::put_eight_bytes;
use refusal::numbers::WireNumber;
use sm3::state::State;

// Bit i of a word, from the highest. Said as a difference that might wrap, a bit tells the compiler nothing of its size, so
// that it stores an entry's eight bytes at once; from `% 2` it makes three stores an entry, at twice the time.
#[tactic(auto, unfolding(sm3::specs::Words::bit))]
fn bit_of(x: u32, i: u64) -> u64
    requires { i < 32 }
    ensures { result ≡ bit i x }
{
    let y = (x >> (31 - i)) as u64;
    y.wrapping_sub(y / 2 * 2)
}

// The entry of wire w: 8 bytes, the least first.
pub fn put_entry(out: &mut [u8], w: WireNumber, v: u64)
    requires { 8 * (w.0 + 1) ≤ length out.old }
    ensures { Wrote w.0 1 (λ (k : ℕ). v) out.old out.new }
{
    put_eight_bytes(out, 8 * w.0 as usize, v);
}

// A word on the 32 wires from w on, the highest bit first.
pub fn put_word(out: &mut [u8], w: WireNumber, x: u32)
    requires { 8 * (w.0 + 32) ≤ length out.old }
    ensures { Wrote w.0 32 (word_wires x) out.old out.new }
{
    for i in 0..32 {
        put_entry(out, WireNumber(w.0 + i), bit_of(x, i));
    }
}

// Words on 32 wires each, from w on.
pub fn put_words(out: &mut [u8], w: WireNumber, words: &[u32])
    requires { 8 * (w.0 + 32 * length words.now) ≤ length out.old }
    ensures { Wrote w.0 (32 * length words.now) (grid 32 (λ (j : ℕ). word_wires (slice_index words.now j))) out.old out.new }
{
    for (j, &x) in words.iter().enumerate() {
        put_word(out, WireNumber(w.0 + 32 * j as u64), x);
    }
}

// A sum's word and its 2 carries, the higher first, on the 34 wires from w on.
pub fn put_sum(out: &mut [u8], w: WireNumber, sum: Sum)
    requires { 8 * (w.0 + 34) ≤ length out.old }
    ensures { (whole : ℕ) → IsSum sum whole → Wrote w.0 34 (sum_wires whole) out.old out.new }
{
    put_word(out, w, sum.word);
    put_entry(out, WireNumber(w.0 + 32), sum.carry / 2 % 2);
    put_entry(out, WireNumber(w.0 + 33), sum.carry % 2);
}

// The words A to H on the 256 wires from w on.
#[tactic(auto, unfolding(block::specs::BlockWires::state_wires, sm3::specs::Sm3::word_of))]
pub fn put_state(out: &mut [u8], w: WireNumber, s: State)
    requires { 8 * (w.0 + 256) ≤ length out.old }
    ensures { Wrote w.0 256 (state_wires s) out.old out.new }
{
    let words: [u32; 8] = s.into();
    put_words(out, w, &words);
}
