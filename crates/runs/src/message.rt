// The rows of a block's 512 bits: the padding, held against the entries, and the content, judged by its rows' forms.
ghost use Rattle.std.specs.Prelude.{true, ◌≡◌, ℕ, ◌+◌, ◌-◌, ◌*◌, ◌<◌, ◌≤◌, length};
ghost use Rattle.circuit.specs.Circuits.{block_count, message_of};
ghost use Rattle.circuit.specs.Ranges.{OfMessage};
ghost use Rattle.circuit.specs.Wires.{block_first};
ghost use Rattle.agreement.specs.Agrees.{Bits};
ghost use Rattle.runs.specs.MessageRows.{ContentHolds, Padded};

use crate::by_form::form_holds;
use crate::candidate::Candidate;
use assignment::entry::read;
use circuit::circuits::{content_form, content_is_free};
use circuit::frame::block_first;
use circuit::message::MessageSpan;
use circuit::step_form::message::padding_bit;
use refusal::numbers::WireNumber;

// How many bits of the block that begins with bit `at` of a message of so many bits are content.
fn content_bits(bits: u64, at: u64) -> u64
    ensures { (result ≤ 512) × ((k : ℕ) → k < 512 → bits ≤ at + k → result ≤ k) × (result < 512 → bits ≤ at + result) }
{
    if bits <= at {
        return 0;
    }
    if bits - at < 512 {
        return bits - at;
    }
    512
}

// Whether the padding in block i of a message stands on the block's wires. As `all` over the places it is no plainer: what a padding bit asks
// of its place would be said once more, at the closure.
pub fn padding_agrees(assignment: &[u8], message: MessageSpan, i: u64) -> bool
    requires { OfMessage message i × (8 * (block_first i + 512) ≤ length assignment.now) }
    ensures { result ≡ true → Padded message i assignment.now }
{
    let first = block_first(i);
    let at = 512 * (i - message.begin);
    for k in content_bits(message.bits, at)..512 {
        if read(assignment, WireNumber(first.0 + k)) != padding_bit(message.bits, at + k) {
            return false;
        }
    }
    true
}

impl Candidate<'_> {
    // Whether the rows of the content's bits in block i are satisfied, where all of them are bits. Where the content is free they are.
    pub fn content_holds(&self, message: MessageSpan, i: u64) -> bool
        requires { (i < block_count self.now.circuit) × (message ≡ message_of self.now.circuit i) × OfMessage message i × Bits (block_first i) 512 self.now.assignment.now }
        ensures { result ≡ true → ContentHolds self.now.circuit message i self.now.assignment.now }
    {
        if content_is_free(self.circuit, i) {
            return true;
        }
        for b in 0..content_bits(message.bits, 512 * (i - message.begin)) {
            if !form_holds(self.assignment, content_form(self.circuit, i, b)) {
                return false;
            }
        }
        true
    }
}
