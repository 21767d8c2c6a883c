// Where a row of a block stands: the step of the hash that it belongs to, and which row of that step it is.
ghost use Rattle.std.specs.Prelude.{◌≡◌, ◌+◌, ◌<◌, ◌≤◌};
ghost use Rattle.block.specs.Steps.{block_layout, expansion_layout, one_after_other, place, round_layout, rounds_layout, rounds_rows, rows_before_round};
ghost use Rattle.encoding.specs.Sequence.{grid};

use crate::step::{Step, lines_of};

// How many rows a block has.
pub const BLOCK_ROWS: u64 = 32320;

// Its 512 bits.
pub const MESSAGE_ROWS: u64 = 16 * 32;

// A word of its expansion, with what leads to it.
pub const EXPANDED_ROWS: u64 = 192;

// All 52 of them.
pub const EXPANSION_ROWS: u64 = 52 * EXPANDED_ROWS;

// The words W'.
pub const W_PRIME_ROWS: u64 = 64 * 32;

// A round from 0 to 15.
const EARLY_ROWS: u64 = 329;

// A later round.
const LATE_ROWS: u64 = 297;

// The rounds 0 to 15.
const EARLY_ROUNDS_ROWS: u64 = 16 * EARLY_ROWS;

// All rounds.
const ROUNDS_ROWS: u64 = EARLY_ROUNDS_ROWS + 48 * LATE_ROWS;

// How many rows of a block's rounds stand before round j.
pub fn rows_before_round(j: u64) -> u64
    requires { j ≤ 64 }
    ensures { (result ≡ rows_before_round j) × (result ≤ rounds_rows) }
{
    if j < 16 {
        return j * EARLY_ROWS;
    }
    EARLY_ROUNDS_ROWS + (j - 16) * LATE_ROWS
}

// A row's place: `index` is j or the number of a word, `line` counts the rows of that step's word from 0.
#[derive(Clone, Copy, Debug, PartialEq, Eq)]
pub struct Place {
    pub block: u64,
    pub step: Step,
    pub index: u64,
    pub line: u64,
}

// A row of a step.
pub fn step_place(step: Step, block: u64, index: u64, line: u64) -> Place
    ensures { result ≡ place step block index line }
{
    Place {
        block,
        step,
        index,
        line,
    }
}

// Row k of a step whose words have a row for each of their 32 bits.
#[tactic(auto, unfolding(encoding::specs::Sequence::grid))]
pub fn bit_place(step: Step, block: u64, k: u64) -> Place
    ensures { result ≡ grid 32 (place step block) k }
{
    step_place(step, block, k / 32, k % 32)
}

// Row k of word j in block i, where the steps have their words one after the other, and the last step has all rows behind them.
#[tactic(auto, using(crate::proofs::place::OneAfterOther::first_step, crate::proofs::place::OneAfterOther::later_steps, crate::proofs::place::OneAfterOther::last_step))]
fn place_among(steps: &[Step], last: Step, i: u64, j: u64, k: u64) -> Place
    ensures { result ≡ one_after_other (λ s. place s i) steps.now last j k }
{
    let mut line = k;
    for step in steps {
        let rows = lines_of(*step, j);
        if line < rows {
            return step_place(*step, i, j, line);
        }
        line -= rows;
    }
    step_place(last, i, j, line)
}

// Row k of word j of the expansion in block i.
#[tactic(auto, unfolding(crate::specs::Steps::expansion_layout, crate::specs::Steps::one_after_other))]
fn expansion_place(i: u64, j: u64, k: u64) -> Place
    ensures { result ≡ expansion_layout (λ s. place s i) j k }
{
    place_among(&[Step::Q, Step::P1], Step::W, i, j, k)
}

// Row k of round j in block i.
#[tactic(auto, unfolding(crate::specs::Steps::round_layout, crate::specs::Steps::one_after_other))]
fn round_place(i: u64, j: u64, k: u64) -> Place
    ensures { result ≡ round_layout (λ s. place s i) j k }
{
    let steps = [Step::U, Step::Ss2, Step::Ff, Step::Gg, Step::Tt1, Step::Tt2];
    place_among(&steps, Step::P0, i, j, k)
}

// Row k of the rounds of block i.
#[tactic(auto, unfolding(crate::specs::Steps::rounds_layout, encoding::specs::Sequence::beside, encoding::specs::Sequence::grid))]
fn rounds_place(i: u64, k: u64) -> Place
    ensures { result ≡ rounds_layout (λ s. place s i) k }
{
    if k < EARLY_ROUNDS_ROWS {
        return round_place(i, k / EARLY_ROWS, k % EARLY_ROWS);
    }
    let k = k - EARLY_ROUNDS_ROWS;
    round_place(i, 16 + k / LATE_ROWS, k % LATE_ROWS)
}

// Row k of block i. Its parts are told apart one by one: a table of them would need a function beside each, since each has rows of its
// own kind.
#[tactic(auto, unfolding(crate::specs::Steps::block_layout, encoding::specs::Sequence::beside, encoding::specs::Sequence::grid))]
pub fn block_place(i: u64, k: u64) -> Place
    ensures { result ≡ block_layout (λ s. place s i) k }
{
    if k < MESSAGE_ROWS {
        return bit_place(Step::Message, i, k);
    }
    let k = k - MESSAGE_ROWS;
    if k < EXPANSION_ROWS {
        return expansion_place(i, 16 + k / EXPANDED_ROWS, k % EXPANDED_ROWS);
    }
    let k = k - EXPANSION_ROWS;
    if k < W_PRIME_ROWS {
        return bit_place(Step::WPrime, i, k);
    }
    let k = k - W_PRIME_ROWS;
    if k < ROUNDS_ROWS {
        return rounds_place(i, k);
    }
    bit_place(Step::Result, i, k - ROUNDS_ROWS)
}
