// A block on its wires.
ghost use Rattle.block.specs.Bounds.{BlockFrom};

use refusal::numbers::WireNumber;

// A block whose wires are numbered from `first` on. The eight words that it begins with stand from `begin` on, before it.
#[derive(Clone, Copy, Debug, PartialEq, Eq)]
pub struct Block {
    pub first: WireNumber,
    pub begin: WireNumber,
    ghost placed: { BlockFrom first.0 begin.0 },
}
