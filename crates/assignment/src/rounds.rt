// The wires of the 64 rounds of a block.
ghost use Rattle.std.specs.Prelude.{◌≡◌, ℕ, ◌+◌, ◌*◌, ◌<◌, ◌≤◌, length, slice_index};
ghost use Rattle.assignment.specs.Sum.{IsSum};
ghost use Rattle.assignment.specs.Wrote.{Wrote};
ghost use Rattle.block.specs.BlockWires.{round_wires};
ghost use Rattle.block.specs.Wires.{round_width};
ghost use Rattle.encoding.specs.Sequence.{beside, grid};
ghost use Rattle.forms.specs.WordWires.{sum_wires, word_wires};
ghost use Rattle.sm3.specs.Sm3.{w_prime, round_of, rounds};

use crate::values::{RoundValues, after_round, round_values};
use crate::wires::{put_sum, put_word};
use block::wire::{FF, GG, P0, ROUND_WIDTH, SS2, TT1, TT2};
use refusal::numbers::WireNumber;
use sm3::state::State;

// What a round makes of A to H before it adds them up, u, SS2, FF and GG, on the first 130 of its wires, from w on.
fn put_summands(out: &mut [u8], w: WireNumber, r: RoundValues)
    requires { 8 * (w.0 + 130) ≤ length out.old }
    ensures { (u : ℕ) → IsSum r.u u → Wrote w.0 130 (beside 34 (sum_wires u) (beside 32 (word_wires r.ss2) (beside 32 (word_wires r.ff) (word_wires r.gg)))) out.old out.new }
{
    let u = r.u;
    put_sum(out, w, u);
    put_word(out, WireNumber(w.0 + SS2), r.ss2);
    put_word(out, WireNumber(w.0 + FF), r.ff);
    put_word(out, WireNumber(w.0 + GG), r.gg);
}

// TT1, TT2 and P0(TT2) of a round, on the last 100 of its 230 wires from w on.
fn put_sums(out: &mut [u8], w: WireNumber, r: RoundValues)
    requires { 8 * (w.0 + round_width) ≤ length out.old }
    ensures { (tt1 tt2 : ℕ) → IsSum r.tt1 tt1 → IsSum r.tt2 tt2 → Wrote (w.0 + 130) 100 (beside 34 (sum_wires tt1) (beside 34 (sum_wires tt2) (word_wires r.p0))) out.old out.new }
{
    let tt1 = r.tt1;
    put_sum(out, WireNumber(w.0 + TT1), tt1);
    let tt2 = r.tt2;
    put_sum(out, WireNumber(w.0 + TT2), tt2);
    put_word(out, WireNumber(w.0 + P0), r.p0);
}

// Round j on the 230 wires from w on, and A to H after it.
fn put_round(out: &mut [u8], w: WireNumber, s: State, j: usize, x: &[u32; 68]) -> State
    requires { (j < 64) × (8 * (w.0 + round_width) ≤ length out.old) }
    ensures value { result ≡ round_of j (slice_index x.now j) (w_prime x.now j) s }
    ensures wrote { Wrote w.0 round_width (round_wires x.now j s) out.old out.new }
{
    let r = round_values(s, j, x);
    put_summands(out, w, r);
    put_sums(out, w, r);
    after_round(s, r)
}

// The 64 rounds on the 14,720 wires from w on, from the words v with the expansion x, and A to H after them.
pub fn put_rounds(out: &mut [u8], w: WireNumber, v: State, x: &[u32; 68]) -> State
    requires { 8 * (w.0 + 64 * round_width) ≤ length out.old }
    ensures value { result ≡ rounds x.now v 64 }
    ensures wrote { Wrote w.0 (64 * round_width) (grid round_width (λ (j : ℕ). round_wires x.now j (rounds x.now v j))) out.old out.new }
{
    let mut s = v;
    for j in 0..64 {
        s = put_round(out, WireNumber(w.0 + ROUND_WIDTH * j as u64), s, j, x);
    }
    s
}
