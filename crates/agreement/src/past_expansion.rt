// The wires of a block past its expansion, held against the entries of an assignment.
ghost use Rattle.std.specs.Prelude.{◌≡◌, ◌+◌, ◌*◌, ◌≤◌, length};
ghost use Rattle.agreement.specs.Agrees.{PastExpansion};
ghost use Rattle.block.specs.Wires.{wires_per_block};

use crate::expansion::w_primes_agree;
use crate::rounds::rounds_agree;
use crate::wires::state_agrees;
use block::place::{W_PRIME_ROWS, rows_before_round};
use block::wire::{RESULT, ROUNDS, W_PRIMES};
use refusal::numbers::WireNumber;
use sm3::state::State;

// The rows of the result.
const RESULT_ROWS: u64 = 8 * 32;

// How many rows of a block past those of its expansion, the words x, hold because its wires are what these and the words v that it begins
// with make them: up to a word W' or a round whose wires are not.
pub fn rows_past_expansion(assignment: &[u8], first: WireNumber, v: State, x: &[u32; 68]) -> u64
    requires { 8 * (first.0 + wires_per_block) ≤ length assignment.now }
    ensures { PastExpansion first.0 x.now v assignment.now result }
{
    let w_primes = w_primes_agree(assignment, WireNumber(first.0 + W_PRIMES), x);
    if w_primes < 64 {
        return 32 * w_primes;
    }
    let rounds = rounds_agree(assignment, WireNumber(first.0 + ROUNDS), v, x);
    let before_round = W_PRIME_ROWS + rows_before_round(rounds.count);
    if rounds.count < 64 {
        return before_round;
    }
    let result = rounds.state ^ v;
    if !state_agrees(assignment, WireNumber(first.0 + RESULT), result) {
        return before_round;
    }
    before_round + RESULT_ROWS
}
