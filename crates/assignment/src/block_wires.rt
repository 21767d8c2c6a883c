// The wires of one block.
ghost use Rattle.std.specs.Prelude.{◌≡◌, ℕ, ◌+◌, ◌*◌, ◌<◌, ◌≤◌, length, take};
ghost use Rattle.assignment.specs.Wrote.{Wrote};
ghost use Rattle.block.specs.BlockWires.{block_wires};
ghost use Rattle.block.specs.Wires.{wires_per_block};
ghost use Rattle.sm3.specs.Sm3.{block, expansion};

use crate::expansion::{put_expanded_words, put_w_primes};
use crate::rounds::put_rounds;
use crate::wires::{put_state, put_words};
use block::wire::{EXPANSION, RESULT, ROUNDS, W_PRIMES};
use refusal::numbers::WireNumber;
use sm3::state::State;

// The block with the words W0 to W15, which begins with the words v, on the 22,528 wires from w on, and its result.
pub fn put_block(out: &mut [u8], w: WireNumber, v: State, words: [u32; 68]) -> State
    requires { 8 * (w.0 + wires_per_block) ≤ length out.old }
    ensures { (bits : ℕ → ℕ) → ((k : ℕ) → k < 512 → bits k < 2) → take 16 words ≡ expansion bits 16 → (result ≡ block bits v) × Wrote w.0 wires_per_block (block_wires bits v) out.old out.new }
{
    let mut x = words;
    put_words(out, w, &x[..16]);
    put_expanded_words(out, WireNumber(w.0 + EXPANSION), &mut x);
    put_w_primes(out, WireNumber(w.0 + W_PRIMES), &x);
    let s = put_rounds(out, WireNumber(w.0 + ROUNDS), v, &x);
    let r = s ^ v;
    put_state(out, WireNumber(w.0 + RESULT), r);
    r
}
