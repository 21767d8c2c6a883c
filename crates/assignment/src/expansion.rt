// The wires of a block's expansion, and of the words W'0 to W'63.
ghost use Rattle.std.specs.Prelude.{◌≡◌, ℕ, ◌+◌, ◌*◌, ◌<◌, ◌≤◌, length, take};
ghost use Rattle.assignment.specs.Wrote.{Wrote};
ghost use Rattle.block.specs.BlockWires.{expansion_wires};
ghost use Rattle.block.specs.Wires.{expansion_width};
ghost use Rattle.encoding.specs.Sequence.{beside, grid};
ghost use Rattle.forms.specs.WordWires.{word_wires};
ghost use Rattle.sm3.specs.Sm3.{P1, expanded, expansion, mixed, w_prime};

use crate::values::expansion_values;
use crate::wires::put_word;
use block::wire::EXPANSION_WIDTH;
use refusal::numbers::WireNumber;

// q, P1(q) and Wj, from the words before it, on the 96 wires from w on.
fn put_expanded(out: &mut [u8], w: WireNumber, x: &[u32; 68], j: usize) -> u32
    requires { (16 ≤ j) × (j < 68) × (8 * (w.0 + expansion_width) ≤ length out.old) }
    ensures value { result ≡ expanded x.now j }
    ensures wrote { Wrote w.0 expansion_width (beside 32 (word_wires (mixed x.now j)) (beside 32 (word_wires (P1 (mixed x.now j))) (word_wires result))) out.old out.new }
{
    let r = expansion_values(x, j);
    put_word(out, w, r.q);
    put_word(out, WireNumber(w.0 + 32), r.p1);
    put_word(out, WireNumber(w.0 + 64), r.word);
    r.word
}

// W16 to W67 with q and P1(q), from W0 to W15, on the 4,992 wires from w on and into `x`.
pub fn put_expanded_words(out: &mut [u8], w: WireNumber, x: &mut [u32; 68])
    requires { (length x.old ≡ 68) × (8 * (w.0 + 52 * expansion_width) ≤ length out.old) }
    ensures { (bits : ℕ → ℕ) → take 16 x.old ≡ expansion bits 16 → (x.new ≡ expansion bits 68) × Wrote w.0 (52 * expansion_width) (grid expansion_width (λ (j : ℕ). expansion_wires (expansion bits 68) (16 + j))) out.old out.new }
{
    for j in 0..52 {
        x[16 + j] = put_expanded(out, WireNumber(w.0 + EXPANSION_WIDTH * j as u64), x, 16 + j);
    }
}

// W'0 to W'63 on the 2,048 wires from w on.
pub fn put_w_primes(out: &mut [u8], w: WireNumber, x: &[u32; 68])
    requires { 8 * (w.0 + 2048) ≤ length out.old }
    ensures { Wrote w.0 2048 (grid 32 (λ (j : ℕ). word_wires (w_prime x.now j))) out.old out.new }
{
    for j in 0..64 {
        put_word(out, WireNumber(w.0 + 32 * j as u64), x[j] ^ x[j + 4]);
    }
}
