// The wires of a block's 64 rounds, held against the entries of an assignment.
ghost use Rattle.std.specs.Prelude.{◌≡◌, ℕ, ◌+◌, ◌*◌, ◌≤◌, true, List, length, slice_index};
ghost use Rattle.assignment.specs.Values.{IsRound};
ghost use Rattle.block.specs.BlockWires.{round_wires};
ghost use Rattle.block.specs.Wires.{round_width};
ghost use Rattle.encoding.specs.Sequence.{grid};
ghost use Rattle.agreement.specs.Agrees.{Agrees};
ghost use Rattle.sm3.specs.Sm3.{w_prime, rounds};
ghost use Rattle.sm3.specs.declared.state.State.{State};

use crate::wires::{sum_agrees, word_agrees};
use assignment::values::{RoundValues, after_round, round_values};
use block::wire::{FF, GG, P0, ROUND_WIDTH, SS2, TT1, TT2};
use refusal::numbers::WireNumber;
use sm3::state::State;

// Whether the 230 wires from w on are those of a round that computes r.
fn round_agrees(assignment: &[u8], w: WireNumber, r: RoundValues) -> bool
    requires { 8 * (w.0 + round_width) ≤ length assignment.now }
    ensures { result ≡ true → (x : List ℕ) (j : ℕ) (s : State) → IsRound r j (slice_index x j) (w_prime x j) s → Agrees w.0 round_width (round_wires x j s) assignment.now }
{
    let u = r.u;
    if !sum_agrees(assignment, w, u) {
        return false;
    }
    if !word_agrees(assignment, WireNumber(w.0 + SS2), r.ss2) {
        return false;
    }
    if !word_agrees(assignment, WireNumber(w.0 + FF), r.ff) {
        return false;
    }
    if !word_agrees(assignment, WireNumber(w.0 + GG), r.gg) {
        return false;
    }
    let tt1 = r.tt1;
    if !sum_agrees(assignment, WireNumber(w.0 + TT1), tt1) {
        return false;
    }
    let tt2 = r.tt2;
    if !sum_agrees(assignment, WireNumber(w.0 + TT2), tt2) {
        return false;
    }
    word_agrees(assignment, WireNumber(w.0 + P0), r.p0)
}

// What the wires of the rounds are.
#[derive(Clone, Copy)]
pub struct RoundsRead {
    // How many rounds have their wires, up to the first that has not.
    pub count: u64,
    // The words A to H after these.
    pub state: State,
}

// How many of the 64 rounds have their wires from w on, from the words v with the expansion x.
pub fn rounds_agree(assignment: &[u8], w: WireNumber, v: State, x: &[u32; 68]) -> RoundsRead
    requires { 8 * (w.0 + 64 * round_width) ≤ length assignment.now }
    ensures { (result.count ≤ 64) × (result.state ≡ rounds x.now v result.count) × Agrees w.0 (result.count * round_width) (grid round_width (λ (j : ℕ). round_wires x.now j (rounds x.now v j))) assignment.now }
{
    let mut s = v;
    for j in 0..64 {
        let r = round_values(s, j, x);
        if !round_agrees(assignment, WireNumber(w.0 + ROUND_WIDTH * j as u64), r) {
            return RoundsRead {
                count: j as u64,
                state: s,
            };
        }
        s = after_round(s, r);
    }
    RoundsRead {
        count: 64,
        state: s,
    }
}
