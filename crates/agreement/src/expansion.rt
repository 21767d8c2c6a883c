// The wires of a block's expansion and of the words W'0 to W'63, held against the entries of an assignment.
ghost use Rattle.std.specs.Prelude.{◌≡◌, ℕ, ◌+◌, ◌*◌, ◌≤◌, true, length, take};
ghost use Rattle.block.specs.BlockWires.{expansion_wires};
ghost use Rattle.block.specs.Wires.{expansion_width};
ghost use Rattle.encoding.specs.Sequence.{beside, grid};
ghost use Rattle.forms.specs.WordWires.{word_wires};
ghost use Rattle.agreement.specs.Agrees.{Agrees};
ghost use Rattle.sm3.specs.Sm3.{expansion, w_prime};

use crate::wires::word_agrees;
use assignment::values::{ExpansionValues, expansion_values};
use block::wire::EXPANSION_WIDTH;
use refusal::numbers::WireNumber;

// Whether the 96 wires from w on are those of q, P1(q) and Wj.
fn values_agree(assignment: &[u8], w: WireNumber, r: ExpansionValues) -> bool
    requires { 8 * (w.0 + expansion_width) ≤ length assignment.now }
    ensures { result ≡ true → Agrees w.0 expansion_width (beside 32 (word_wires r.q) (beside 32 (word_wires r.p1) (word_wires r.word))) assignment.now }
{
    if !word_agrees(assignment, w, r.q) {
        return false;
    }
    if !word_agrees(assignment, WireNumber(w.0 + 32), r.p1) {
        return false;
    }
    word_agrees(assignment, WireNumber(w.0 + 64), r.word)
}

// How many of the words W16 to W67 have their wires, with those of q and P1(q), from w on, up to the first that has not. They come
// from W0 to W15 and go into `x`.
pub fn expanded_words_agree(assignment: &[u8], w: WireNumber, x: &mut [u32; 68]) -> u64
    requires { (length x.old ≡ 68) × (8 * (w.0 + 52 * expansion_width) ≤ length assignment.now) }
    ensures { (result ≤ 52) × ((bits : ℕ → ℕ) → take 16 x.old ≡ expansion bits 16 → (result ≡ 52 → x.new ≡ expansion bits 68) × Agrees w.0 (result * expansion_width) (grid expansion_width (λ (j : ℕ). expansion_wires (expansion bits 68) (16 + j))) assignment.now) }
{
    for j in 0..52 {
        let r = expansion_values(x, 16 + j);
        if !values_agree(assignment, WireNumber(w.0 + EXPANSION_WIDTH * j as u64), r) {
            return j as u64;
        }
        x[16 + j] = r.word;
    }
    52
}

// How many of the words W'0 to W'63 have their wires from w on, up to the first that has not.
pub fn w_primes_agree(assignment: &[u8], w: WireNumber, x: &[u32; 68]) -> u64
    requires { 8 * (w.0 + 2048) ≤ length assignment.now }
    ensures { (result ≤ 64) × Agrees w.0 (result * 32) (grid 32 (λ (j : ℕ). word_wires (w_prime x.now j))) assignment.now }
{
    for j in 0..64 {
        if !word_agrees(assignment, WireNumber(w.0 + 32 * j as u64), x[j] ^ x[j + 4]) {
            return j as u64;
        }
    }
    64
}
