// One round of a block.
ghost use Rattle.std.specs.Prelude.{◌+◌, ◌<◌};
ghost use Rattle.sm3.specs.Reached.{Reached};

use crate::constants::rotated_constant;
use crate::expansion::next_word;
use crate::state::State;
use crate::words::{ff, gg, p0, rotate_left, sum_of_3, sum_of_4};

// Round j on A to H, s, of a block that begins with v, which only the contract names. W(j+4) is made on the way: W'j needs
// it, and TT2 does not wait for it.
pub fn round(v: State, s: State, j: usize, bytes: &[u8; 64], w: &mut [u32; 68]) -> State
    requires { (j < 64) × Reached bytes.now v j w.old s }
    ensures { Reached bytes.now v (j + 1) w.new result }
{
    let a12 = rotate_left(s.a, 12);
    let ss1 = rotate_left(sum_of_3(a12, s.e, rotated_constant(j)), 7);
    let tt2 = sum_of_4(gg(j, s.e, s.f, s.g), s.h, ss1, w[j]);
    w[j + 4] = next_word(bytes, w, j + 4);
    let w_prime = w[j] ^ w[j + 4];
    let tt1 = sum_of_4(ff(j, s.a, s.b, s.c), s.d, ss1 ^ a12, w_prime);
    State {
        a: tt1,
        b: s.a,
        c: rotate_left(s.b, 9),
        d: s.c,
        e: p0(tt2),
        f: s.e,
        g: rotate_left(s.f, 19),
        h: s.g,
    }
}
