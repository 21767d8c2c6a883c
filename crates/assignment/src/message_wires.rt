// The wires of a padded message, block after block, from any wire on.
ghost use Rattle.std.specs.Prelude.{◌≡◌, ◌+◌, ◌*◌, ◌≤◌, length};
ghost use Rattle.assignment.specs.Wrote.{Wrote};
ghost use Rattle.block.specs.MessageWires.{message_wires};
ghost use Rattle.block.specs.Wires.{wires_per_block};
ghost use Rattle.encoding.specs.Bits.{bit_of_bytes};
ghost use Rattle.encoding.specs.Packed.{packed_length};
ghost use Rattle.limits.specs.Blocks.{blocks, most_bits};
ghost use Rattle.sm3.specs.Message.{digest_of, message};

use crate::block_wires::put_block;
use block::wire::BLOCK_WIRES;
use limits::blocks::block_count;
use limits::record::Record;
use refusal::numbers::WireNumber;
use sm3::constants::start_state;
use sm3::message::message_words;
use sm3::state::State;

// The blocks of a record's message, one at a time, each with the words that the one before it left, on the wires from `first` on, and the
// last one's: the digest.
pub fn put_message(out: &mut [u8], first: WireNumber, handed: Record<'_>) -> State
    requires { 8 * (first.0 + wires_per_block * blocks handed.bits) ≤ length out.old }
    ensures value { result ≡ digest_of handed.entry.bits (bit_of_bytes handed.entry.bytes.now) }
    ensures wrote { Wrote first.0 (wires_per_block * blocks handed.entry.bits) (message_wires (message handed.entry.bits (bit_of_bytes handed.entry.bytes.now))) out.old out.new }
{
    let n = block_count(handed.bits);
    let mut v = start_state();
    for i in 0..n {
        v = put_block(
            out,
            WireNumber(first.0 + BLOCK_WIRES * i),
            v,
            message_words(handed, i as usize),
        );
    }
    v
}
