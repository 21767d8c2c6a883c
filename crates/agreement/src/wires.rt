// Entries held against values from a wire on: the wires of a word, of a sum and of the words A to H.
ghost use Rattle.std.specs.Prelude.{◌≡◌, ℕ, ◌+◌, ◌*◌, ◌≤◌, true, length};
ghost use Rattle.assignment.specs.Sum.{IsSum};
ghost use Rattle.block.specs.BlockWires.{state_wires};
ghost use Rattle.forms.specs.WordWires.{sum_wires, word_wires};
ghost use Rattle.agreement.specs.Agrees.{Agrees};

use crate::word_read::read_standing;
use assignment::entry::read;
use assignment::sum::Sum;
use refusal::numbers::WireNumber;
use sm3::state::State;

// Whether the 32 wires from w on are a word's.
pub fn word_agrees(assignment: &[u8], w: WireNumber, x: u32) -> bool
    requires { 8 * (w.0 + 32) ≤ length assignment.now }
    ensures { result ≡ true → Agrees w.0 32 (word_wires x) assignment.now }
{
    let s = read_standing(assignment, w);
    if 1 < s.seen {
        return false;
    }
    s.number == x as u64
}

// Whether the 34 wires from w on are a sum's word and its 2 carries, the higher first.
pub fn sum_agrees(assignment: &[u8], w: WireNumber, sum: Sum) -> bool
    requires { 8 * (w.0 + 34) ≤ length assignment.now }
    ensures { result ≡ true → (whole : ℕ) → IsSum sum whole → Agrees w.0 34 (sum_wires whole) assignment.now }
{
    if !word_agrees(assignment, w, sum.word) {
        return false;
    }
    if read(assignment, WireNumber(w.0 + 32)) != sum.carry / 2 % 2 {
        return false;
    }
    read(assignment, WireNumber(w.0 + 33)) == sum.carry % 2
}

// Whether the 256 wires from w on are those of the words A to H.
pub fn state_agrees(assignment: &[u8], w: WireNumber, s: State) -> bool
    requires { 8 * (w.0 + 256) ≤ length assignment.now }
    ensures { result ≡ true → Agrees w.0 256 (state_wires s) assignment.now }
{
    let words: [u32; 8] = s.into();
    for (k, &word) in words.iter().enumerate() {
        if !word_agrees(assignment, WireNumber(w.0 + 32 * k as u64), word) {
            return false;
        }
    }
    true
}
