// The eight words A to H that a block works on.
ghost use Rattle.std.specs.Prelude.{◌≡◌};
ghost use Rattle.sm3.specs.Sm3.{state_of, words_of, xor_state};

use std::ops::BitXor;

// A to H, in the standard's order.
#[derive(Clone, Copy, Debug, PartialEq, Eq)]
pub struct State {
    pub a: u32,
    pub b: u32,
    pub c: u32,
    pub d: u32,
    pub e: u32,
    pub f: u32,
    pub g: u32,
    pub h: u32,
}

impl From<[u32; 8]> for State {
    ghost from_gives = { λ words s. s ≡ state_of words };

    fn from(words: [u32; 8]) -> State {
        let [a, b, c, d, e, f, g, h] = words;
        State {
            a,
            b,
            c,
            d,
            e,
            f,
            g,
            h,
        }
    }
}

impl From<State> for [u32; 8] {
    ghost from_gives = { λ s words. words ≡ words_of s };

    fn from(s: State) -> [u32; 8] {
        [s.a, s.b, s.c, s.d, s.e, s.f, s.g, s.h]
    }
}

// Two states, word by word.
impl BitXor for State {
    type Output = State;

    ghost bitxor_gives = { λ s v t. t ≡ xor_state s v };

    #[tactic(auto, unfolding(crate::specs::Sm3::xor_state))]
    fn bitxor(self, v: State) -> State {
        State {
            a: self.a ^ v.a,
            b: self.b ^ v.b,
            c: self.c ^ v.c,
            d: self.d ^ v.d,
            e: self.e ^ v.e,
            f: self.f ^ v.f,
            g: self.g ^ v.g,
            h: self.h ^ v.h,
        }
    }
}
