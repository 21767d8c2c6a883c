// Where a row stands: its block, the step of the hash that it belongs to, and which row of that step it is.
ghost use Rattle.std.specs.Prelude.{◌≡◌, ◌≤◌};
ghost use Rattle.circuit.specs.Places.{place_at, row_count};
ghost use Rattle.circuit.specs.Ranges.{Allowed, most_blocks, most_rows};

use crate::circuits::{Circuit, appended_rows, block_count};
use block::place::{BLOCK_ROWS, Place, bit_place, block_place, step_place};
use block::step::Step;
use refusal::numbers::RowNumber;

// How many rows the start words have, and the digest.
pub const STATE_ROWS: u64 = 8 * 32;

// How many rows a circuit has.
#[tactic(auto, unfolding(crate::specs::Places::row_count))]
pub fn row_count(circuit: Circuit) -> u64
    requires { Allowed circuit }
    ensures { (result ≡ row_count circuit) × (result ≤ most_rows) }
{
    512 + BLOCK_ROWS * block_count(circuit) + appended_rows(circuit)
}

// The place of a row of a circuit of so many blocks.
#[tactic(auto, unfolding(crate::specs::Places::place_at, crate::specs::Places::frame_layout, encoding::specs::Sequence::beside, encoding::specs::Sequence::grid))]
pub fn place_of(blocks: u64, row: RowNumber) -> Place
    requires { blocks ≤ most_blocks }
    ensures { result ≡ place_at blocks row.0 }
{
    let k = row.0;
    if k < STATE_ROWS {
        return bit_place(Step::Start, 0, k);
    }
    let k = k - STATE_ROWS;
    let all = BLOCK_ROWS * blocks;
    if k < all {
        return block_place(k / BLOCK_ROWS, k % BLOCK_ROWS);
    }
    let k = k - all;
    if k < STATE_ROWS {
        return bit_place(Step::Digest, 0, k);
    }
    step_place(Step::Appended, 0, k - STATE_ROWS, 0)
}
