// The rows of a block's 512 bits, which are those of the padded message.
ghost use Rattle.std.specs.Prelude.{◌≡◌, ◌*◌, ◌<◌, ◌≤◌};
ghost use Rattle.circuit.specs.Circuit.{message_form};
ghost use Rattle.circuit.specs.Circuits.{block_count, message_of};
ghost use Rattle.circuit.specs.Ranges.{Allowed, OfMessage};
ghost use Rattle.forms.specs.Terms.{Fit};
ghost use Rattle.limits.specs.Blocks.{blocks, most_bits};
ghost use Rattle.sm3.specs.Message.{message};

use crate::circuits::{Circuit, content_form};
use crate::frame::block_first;
use crate::message::MessageSpan;
use forms::form::Form;
use limits::blocks::block_count;
use refusal::numbers::WireNumber;

// Bit k of a message of so many bits, past its content.
#[tactic(auto, unfolding(sm3::specs::Message::message))]
pub fn padding_bit(bits: u64, k: u64) -> u64
    requires { (bits ≤ most_bits) × (bits ≤ k) × (k < 512 * blocks bits) }
    ensures { (result ≡ message bits (λ i. 0) k) × (result < 2) }
{
    if k == bits {
        return 1;
    }
    let end = 512 * block_count(bits);
    if k < end - 64 {
        return 0;
    }
    (bits >> (end - 1 - k)) % 2
}

// Bit b of block i, which is one of the message: its content is the circuit's, and its padding is fixed.
#[tactic(auto, unfolding(crate::specs::Circuit::message_form))]
pub fn message_form(circuit: Circuit, message: MessageSpan, i: u64, b: u64) -> Form
    requires { Allowed circuit × (i < block_count circuit) × (message ≡ message_of circuit i) × OfMessage message i × (b < 512) }
    ensures { (result ≡ message_form circuit message i b) × Fit result }
{
    let k = 512 * (i - message.begin) + b;
    if k < message.bits {
        return content_form(circuit, i, b);
    }
    let first = block_first(i);
    Form::Fixed {
        w: WireNumber(first.0 + b),
        bit: padding_bit(message.bits, k),
    }
}
