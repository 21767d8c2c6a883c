// The rows of one block that hold because of what its wires are.
ghost use Rattle.std.specs.Prelude.{◌≡◌, ◌+◌, ◌*◌, ◌<◌, ◌≤◌, take};
ghost use Rattle.block.specs.Steps.{block_rows, computed_rows};
ghost use Rattle.circuit.specs.Circuits.{block_count};
ghost use Rattle.circuit.specs.Places.{state_rows};
ghost use Rattle.circuit.specs.Wires.{block_first};
ghost use Rattle.agreement.specs.Agrees.{BitsOfWords};
ghost use Rattle.runs.specs.RowsHold.{RowsHold};

use crate::candidate::Candidate;
use crate::message::padding_agrees;
use agreement::expansion::expanded_words_agree;
use agreement::past_expansion::rows_past_expansion;
use agreement::word_read::{read_state, read_words};
use block::place::{EXPANDED_ROWS, EXPANSION_ROWS, MESSAGE_ROWS};
use block::wire::EXPANSION;
use circuit::circuits::message_of;
use circuit::frame::block_first;
use circuit::wire::beginning;
use refusal::numbers::WireNumber;

// W0 to W15, with room for the rest of an expansion.
fn with_room(words: [u32; 16]) -> [u32; 68]
    ensures { take 16 result ≡ words }
{
    let mut x = [0u32; 68];
    x[..16].copy_from_slice(&words);
    x
}

impl Candidate<'_> {
    // How many rows of block i past those of its bits hold, from the first on, because its wires are what its bits, W0 to W15, and
    // the words that it begins with make them.
    fn computed_rows_passed(&self, i: u64, words: [u32; 16]) -> u64
        requires { (i < block_count self.now.circuit) × BitsOfWords (block_first i) 16 words self.now.assignment.now }
        ensures { (result ≤ computed_rows) × RowsHold self.now.circuit (state_rows + block_rows * i + 512) result self.now.assignment.now }
    {
        let first = block_first(i);
        let begin = beginning(message_of(self.circuit, i), i);
        let Some(v) = read_state(self.assignment, begin) else {
            return 0;
        };
        let mut x = with_room(words);
        let from = WireNumber(first.0 + EXPANSION);
        let expanded = expanded_words_agree(self.assignment, from, &mut x);
        if expanded < 52 {
            return EXPANDED_ROWS * expanded;
        }
        EXPANSION_ROWS + rows_past_expansion(self.assignment, first, v, &x)
    }

    // How many rows of block i hold, from the first on, because of what its wires are. The rows of its 512 bits hold where these are
    // bits, the padding among them is the message's, and the content's rows hold.
    pub fn rows_passed(&self, i: u64) -> u64
        requires { i < block_count self.now.circuit }
        ensures { (result ≤ block_rows) × RowsHold self.now.circuit (state_rows + block_rows * i) result self.now.assignment.now }
    {
        let Some(words) = read_words::<16>(self.assignment, block_first(i)) else {
            return 0;
        };
        let message = message_of(self.circuit, i);
        if !padding_agrees(self.assignment, message, i) {
            return 0;
        }
        if !self.content_holds(message, i) {
            return 0;
        }
        MESSAGE_ROWS + self.computed_rows_passed(i, words)
    }
}
