// The constants of the rounds.
ghost use Rattle.std.specs.Prelude.{◌≡◌, ◌<◌};
ghost use Rattle.sm3.specs.Sm3.{start, rotated_constant, word_of};

use crate::state::State;

// The words that block 0 begins with.
const START: [u32; 8] = [
    0x7380166f, 0x4914b2b9, 0x172442d7, 0xda8a0600, 0xa96f30bc, 0x163138aa, 0xe38dee4d, 0xb0fb0e4e,
];

// T of each round, already rotated left by j mod 32.
static ROTATED: [u32; 64] = [
    0x79cc4519, 0xf3988a32, 0xe7311465, 0xce6228cb, 0x9cc45197, 0x3988a32f, 0x7311465e, 0xe6228cbc,
    0xcc451979, 0x988a32f3, 0x311465e7, 0x6228cbce, 0xc451979c, 0x88a32f39, 0x11465e73, 0x228cbce6,
    0x9d8a7a87, 0x3b14f50f, 0x7629ea1e, 0xec53d43c, 0xd8a7a879, 0xb14f50f3, 0x629ea1e7, 0xc53d43ce,
    0x8a7a879d, 0x14f50f3b, 0x29ea1e76, 0x53d43cec, 0xa7a879d8, 0x4f50f3b1, 0x9ea1e762, 0x3d43cec5,
    0x7a879d8a, 0xf50f3b14, 0xea1e7629, 0xd43cec53, 0xa879d8a7, 0x50f3b14f, 0xa1e7629e, 0x43cec53d,
    0x879d8a7a, 0x0f3b14f5, 0x1e7629ea, 0x3cec53d4, 0x79d8a7a8, 0xf3b14f50, 0xe7629ea1, 0xcec53d43,
    0x9d8a7a87, 0x3b14f50f, 0x7629ea1e, 0xec53d43c, 0xd8a7a879, 0xb14f50f3, 0x629ea1e7, 0xc53d43ce,
    0x8a7a879d, 0x14f50f3b, 0x29ea1e76, 0x53d43cec, 0xa7a879d8, 0x4f50f3b1, 0x9ea1e762, 0x3d43cec5,
];

// The words that block 0 begins with, as a state.
pub fn start_state() -> State
    ensures { result ≡ start }
{
    State::from(START)
}

// Word k of those that block 0 begins with.
#[tactic(auto, unfolding(crate::specs::Sm3::word_of))]
pub fn start_word(k: usize) -> u32
    requires { k < 8 }
    ensures { result ≡ word_of start k }
{
    START[k]
}

// T of round j, rotated.
#[tactic(auto, using(crate::proofs::RotatedTable::table_place))]
pub fn rotated_constant(j: usize) -> u32
    requires { j < 64 }
    ensures { result ≡ rotated_constant j }
{
    ROTATED[j]
}
