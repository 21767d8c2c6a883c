// Runs of rows that hold because of what their wires are: the start rows, those of a block, those of the digest, those of the
// appendix.
ghost use Rattle.std.specs.Prelude.{true, ◌≡◌, ℕ, ◌+◌, ◌-◌, ◌*◌, ◌<◌, ◌≤◌, length};
ghost use Rattle.assignment.specs.Assignment.{entry};
ghost use Rattle.block.specs.Wires.{result_at};
ghost use Rattle.circuit.specs.Circuits.{block_count};
ghost use Rattle.circuit.specs.Places.{row_count};
ghost use Rattle.circuit.specs.Wires.{block_first, digest_first};
ghost use Rattle.runs.specs.RowsHold.{RowsHold};

use crate::candidate::Candidate;
use agreement::wires::state_agrees;
use assignment::entry::read;
use block::place::BLOCK_ROWS;
use block::wire::RESULT;
use circuit::circuits::block_count;
use circuit::frame::{DIGEST, START, block_first};
use circuit::place::STATE_ROWS;
use refusal::numbers::{RowNumber, WireNumber};
use sm3::constants::start_state;

impl Candidate<'_> {
    // Whether the digest's wires have what the result's wires of the last block have.
    fn digest_is_copied(&self) -> bool
        ensures { result ≡ true → (k : ℕ) → k < 256 → entry self.now.assignment.now (digest_first + k) ≡ entry self.now.assignment.now (block_first (block_count self.now.circuit - 1) + result_at + k) }
    {
        let last = block_first(block_count(self.circuit) - 1);
        (0..256).all(
            |k|
                requires { (k < 256) × (8 * (last.0 + result_at + 256) ≤ length self.now.assignment.now) × (8 * (digest_first + 256) ≤ length self.now.assignment.now) }
            {
                let copy = read(self.assignment, WireNumber(DIGEST + k));
                copy == read(self.assignment, WireNumber(last.0 + RESULT + k))
            },
        )
    }

    // How many rows from `row` on hold because of what their wires are. Only where a run of rows begins is it asked: at the first start
    // row, the first row of a block, the first of the digest and the first of the appendix.
    pub fn rows_held(&self, row: RowNumber) -> u64
        requires { row.0 < row_count self.now.circuit }
        ensures { (row.0 + result ≤ row_count self.now.circuit) × RowsHold self.now.circuit row.0 result self.now.assignment.now }
    {
        if row.0 == 0 {
            if state_agrees(self.assignment, WireNumber(START), start_state()) {
                return STATE_ROWS;
            }
            return 0;
        }
        if row.0 < STATE_ROWS {
            return 0;
        }
        let digest = STATE_ROWS + BLOCK_ROWS * block_count(self.circuit);
        if row.0 < digest {
            let i = (row.0 - STATE_ROWS) / BLOCK_ROWS;
            if row.0 != STATE_ROWS + BLOCK_ROWS * i {
                return 0;
            }
            return self.rows_passed(i);
        }
        if row.0 == digest {
            if self.digest_is_copied() {
                return STATE_ROWS;
            }
            return 0;
        }
        if row.0 == digest + STATE_ROWS {
            return self.appended_passed();
        }
        0
    }
}
