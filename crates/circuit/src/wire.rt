// How many wires a circuit has, and what its blocks begin with.
ghost use Rattle.std.specs.Prelude.{◌≡◌, ◌≤◌};
ghost use Rattle.block.specs.Bounds.{BlockFrom};
ghost use Rattle.circuit.specs.Circuit.{begins_at};
ghost use Rattle.circuit.specs.Ranges.{Allowed, OfMessage, most_wires};
ghost use Rattle.circuit.specs.Wires.{wire_count, block_first};

use crate::circuits::{Circuit, appended_wires, block_count};
use crate::frame::{FIRST_BLOCK, START, block_first};
use crate::message::MessageSpan;
use block::placed::Block;
use block::wire::{BLOCK_WIRES, RESULT};
use refusal::numbers::WireNumber;

// How many wires a circuit has.
#[tactic(auto, unfolding(crate::specs::Wires::wire_count))]
pub fn wire_count(circuit: Circuit) -> u64
    requires { Allowed circuit }
    ensures { (result ≡ wire_count circuit) × (257 ≤ result) × (result ≤ most_wires) }
{
    FIRST_BLOCK + BLOCK_WIRES * block_count(circuit) + appended_wires(circuit)
}

// The first wire of the eight words that block i of a message begins with: the start words where the message begins, else the
// result of the block before.
pub fn beginning(message: MessageSpan, i: u64) -> WireNumber
    requires { OfMessage message i }
    ensures { (result.0 ≡ begins_at message i) × BlockFrom (block_first i) result.0 }
{
    if i == message.begin {
        return WireNumber(START);
    }
    let before = block_first(i - 1);
    WireNumber(before.0 + RESULT)
}

// Block i of a message, on its wires.
pub fn placed_block(message: MessageSpan, i: u64) -> Block
    requires { OfMessage message i }
    ensures first { result.first.0 ≡ block_first i }
    ensures begin { result.begin.0 ≡ begins_at message i }
{
    Block {
        first: block_first(i),
        begin: beginning(message, i),
    }
}
