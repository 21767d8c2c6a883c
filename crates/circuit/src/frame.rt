// Where the parts of a circuit begin, which is the same for every circuit.
ghost use Rattle.std.specs.Prelude.{◌≡◌, ◌<◌};
ghost use Rattle.block.specs.Bounds.{BlockAt};
ghost use Rattle.circuit.specs.Frame.{block_first};
ghost use Rattle.circuit.specs.Ranges.{most_blocks};

use block::wire::BLOCK_WIRES;
use refusal::numbers::WireNumber;

// The first wire of the digest; wire 0 is the constant 1.
pub const DIGEST: u64 = 1;

// The first wire of the start words.
pub const START: u64 = 257;

// The first wire of block 0.
pub const FIRST_BLOCK: u64 = 513;

// The first wire of block i.
pub fn block_first(i: u64) -> WireNumber
    requires { i < most_blocks }
    ensures { (result.0 ≡ block_first i) × BlockAt result.0 }
{
    WireNumber(FIRST_BLOCK + BLOCK_WIRES * i)
}
