// The 64 rounds of a block, sixteen at a time. The number of each round is a constant to the compiler, which then keeps words in
// registers and puts T into its instructions.
ghost use Rattle.std.specs.Prelude.{◌≡◌, ◌+◌, ◌≤◌};
ghost use Rattle.sm3.specs.Reached.{Reached};
ghost use Rattle.sm3.specs.Sm3.{expansion, rounds};
ghost use Rattle.encoding.specs.Bits.{bit_of_bytes};

use crate::expansion::first_words;
use crate::round::round;
use crate::state::State;

// The sixteen rounds from FROM on.
fn sixteen_rounds<const FROM: usize>(
    v: State,
    x: State,
    bytes: &[u8; 64],
    w: &mut [u32; 68],
) -> State
    requires room { FROM ≤ 48 }
    requires before { Reached bytes.now v FROM w.old x }
    ensures { Reached bytes.now v (FROM + 16) w.new result }
{
    let mut s = x;
    s = round(v, s, FROM, bytes, w);
    s = round(v, s, FROM + 1, bytes, w);
    s = round(v, s, FROM + 2, bytes, w);
    s = round(v, s, FROM + 3, bytes, w);
    s = round(v, s, FROM + 4, bytes, w);
    s = round(v, s, FROM + 5, bytes, w);
    s = round(v, s, FROM + 6, bytes, w);
    s = round(v, s, FROM + 7, bytes, w);
    s = round(v, s, FROM + 8, bytes, w);
    s = round(v, s, FROM + 9, bytes, w);
    s = round(v, s, FROM + 10, bytes, w);
    s = round(v, s, FROM + 11, bytes, w);
    s = round(v, s, FROM + 12, bytes, w);
    s = round(v, s, FROM + 13, bytes, w);
    s = round(v, s, FROM + 14, bytes, w);
    s = round(v, s, FROM + 15, bytes, w);
    s
}

// The 64 rounds on a state v with a block.
#[tactic(auto, using(crate::proofs::rounds::FirstRounds::reached_first))]
pub fn all_rounds(v: State, bytes: &[u8; 64]) -> State
    ensures { result ≡ rounds (expansion (bit_of_bytes bytes.now) 68) v 64 }
{
    let mut w = first_words(bytes, 4);
    let s16 = sixteen_rounds::<0>(v, v, bytes, &mut w);
    let s32 = sixteen_rounds::<16>(v, s16, bytes, &mut w);
    let s48 = sixteen_rounds::<32>(v, s32, bytes, &mut w);
    sixteen_rounds::<48>(v, s48, bytes, &mut w)
}
