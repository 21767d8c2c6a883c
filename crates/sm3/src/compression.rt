// The compression of one block.
ghost use Rattle.std.specs.Prelude.{◌≡◌};
ghost use Rattle.sm3.specs.Sm3.{block};
ghost use Rattle.encoding.specs.Bits.{bit_of_bytes};

use crate::rounds::all_rounds;
use crate::state::State;

// The result of a block that begins with the words v. It stays apart from its caller: in the loop over the blocks the compiler keeps
// fewer words in registers, and a digest of 1,015 bytes takes 4,840 ns in place of 4,270.
#[tactic(auto, unfolding(crate::specs::Sm3::block))]
#[inline(never)]
pub fn compress(v: State, bytes: &[u8; 64]) -> State
    ensures { result ≡ block (bit_of_bytes bytes.now) v }
{
    all_rounds(v, bytes) ^ v
}
