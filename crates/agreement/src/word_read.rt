// Words read off the wires of an assignment, where those are bits.
ghost use Rattle.std.specs.Prelude.{◌≡◌, ℕ, ◌+◌, ◌*◌, ◌<◌, ◌≤◌, List, length, Some};
ghost use Rattle.agreement.specs.Agrees.{Bits, BitsOf, BitsOfState, BitsOfWords};
ghost use Rattle.sm3.specs.declared.state.State.{State};

use assignment::entry::read;
use refusal::numbers::WireNumber;
use sm3::state::State;

// What 32 entries are. In an honest assignment they are bits.
#[derive(Clone, Copy)]
pub struct Standing {
    // The number that they write if they are bits.
    pub number: u64,
    // All of them put together by `or`, so that it is above 1 where one of them is.
    pub seen: u64,
}

// The number that the 32 entries from w on write if they are bits.
pub fn number_from(assignment: &[u8], w: WireNumber) -> u64
    requires { 8 * (w.0 + 32) ≤ length assignment.now }
    ensures { Bits w.0 32 assignment.now → BitsOf w.0 32 result assignment.now }
{
    let mut number: u64 = 0;
    for i in 0..32 {
        let n = read(assignment, WireNumber(w.0 + i));
        number = number.wrapping_add(number).wrapping_add(n);
    }
    number
}

// The 32 entries from w on, each read once for both. The callers test `seen`.
pub fn read_standing(assignment: &[u8], w: WireNumber) -> Standing
    requires { 8 * (w.0 + 32) ≤ length assignment.now }
    ensures { result.seen < 2 → BitsOf w.0 32 result.number assignment.now }
{
    let mut number: u64 = 0;
    let mut seen: u64 = 0;
    for i in 0..32 {
        let n = read(assignment, WireNumber(w.0 + i));
        number = number.wrapping_add(number).wrapping_add(n);
        seen = seen | n;
    }
    Standing { number, seen }
}

// The N words on 32 wires each from w on, if all those wires are bits.
pub fn read_words<const N: usize>(assignment: &[u8], w: WireNumber) -> Option<[u32; N]>
    requires { 8 * (w.0 + 32 * N) ≤ length assignment.now }
    ensures { (words : List ℕ) → result ≡ Some words → BitsOfWords w.0 N words assignment.now }
{
    let mut words = [0u32; N];
    for (j, word) in words.iter_mut().enumerate() {
        let s = read_standing(assignment, WireNumber(w.0 + 32 * j as u64));
        if 1 < s.seen {
            return None;
        }
        *word = s.number as u32;
    }
    Some(words)
}

// The words A to H on the 256 wires from w on, if all of them are bits.
#[tactic(auto, using(crate::proofs::Agreeing::state_read))]
pub fn read_state(assignment: &[u8], w: WireNumber) -> Option<State>
    requires { 8 * (w.0 + 256) ≤ length assignment.now }
    ensures { (s : State) → result ≡ Some s → BitsOfState w.0 s assignment.now }
{
    let words = read_words::<8>(assignment, w)?;
    Some(words.into())
}
