// What the expansion and the rounds of a block compute, value by value, as the wires of a block have it.
ghost use Rattle.std.specs.Prelude.{◌≡◌, ℕ, ◌<◌, ◌≤◌, slice_index};
ghost use Rattle.assignment.specs.Values.{IsExpansion, IsRound};
ghost use Rattle.sm3.specs.Sm3.{w_prime, rotated_constant, round_of};

use crate::sum::{Sum, add_3, add_4};
use sm3::constants::rotated_constant;
use sm3::expansion::mixed_word;
use sm3::state::State;
use sm3::words::{ff, gg, p0, p1, rotate_left};

// What the expansion computes for one word, in the order of its wires: q, P1(q) and Wj.
#[derive(Clone, Copy)]
pub struct ExpansionValues {
    pub q: u32,
    pub p1: u32,
    pub word: u32,
}

// What a round computes, in the order of its wires: u, SS2, FF, GG, TT1, TT2 and P0(TT2), the sums with their carries.
#[derive(Clone, Copy)]
pub struct RoundValues {
    pub u: Sum,
    pub ss2: u32,
    pub ff: u32,
    pub gg: u32,
    pub tt1: Sum,
    pub tt2: Sum,
    pub p0: u32,
}

// q, P1(q) and Wj, from the words before Wj.
pub fn expansion_values(x: &[u32; 68], j: usize) -> ExpansionValues
    requires { (16 ≤ j) × (j < 68) }
    ensures { IsExpansion result x.now j }
{
    let q = mixed_word(x, j);
    let p = p1(q);
    ExpansionValues {
        q,
        p1: p,
        word: p ^ rotate_left(x[j - 13], 7) ^ x[j - 6],
    }
}

// Round j on s with T rotated, Wj and W'j.
fn values_of(s: State, j: usize, t: u32, word: u32, primed: u32) -> RoundValues
    requires { t ≡ rotated_constant j }
    ensures { IsRound result j word primed s }
{
    let a12 = rotate_left(s.a, 12);
    let u = add_3(a12, s.e, t);
    let ss1 = rotate_left(u.word, 7);
    let ss2 = ss1 ^ a12;
    let ff = ff(j, s.a, s.b, s.c);
    let gg = gg(j, s.e, s.f, s.g);
    let tt1 = add_4(ff, s.d, ss2, primed);
    let tt2 = add_4(gg, s.h, ss1, word);
    RoundValues {
        u,
        ss2,
        ff,
        gg,
        tt1,
        tt2,
        p0: p0(tt2.word),
    }
}

// Round j on s with the expansion x.
pub fn round_values(s: State, j: usize, x: &[u32; 68]) -> RoundValues
    requires { j < 64 }
    ensures { IsRound result j (slice_index x.now j) (w_prime x.now j) s }
{
    values_of(s, j, rotated_constant(j), x[j], x[j] ^ x[j + 4])
}

// A to H after a round on s that computed r.
pub fn after_round(s: State, r: RoundValues) -> State
    ensures { (j word w' : ℕ) → IsRound r j word w' s → result ≡ round_of j word w' s }
{
    let tt1 = r.tt1;
    State {
        a: tt1.word,
        b: s.a,
        c: rotate_left(s.b, 9),
        d: s.c,
        e: r.p0,
        f: s.e,
        g: rotate_left(s.f, 19),
        h: s.g,
    }
}
