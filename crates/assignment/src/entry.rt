// The entries of an assignment: 8 bytes a wire, least byte first.
ghost use Rattle.std.specs.Prelude.{◌≡◌, ◌+◌, ◌*◌, ◌≤◌, length};
ghost use Rattle.assignment.specs.Assignment.{entry};
ghost use Rattle.assignment.specs.Bounded.{AtMost};

use encoding::read::eight_bytes;
use refusal::numbers::WireNumber;

// The entry of a wire.
pub fn read(assignment: &[u8], w: WireNumber) -> u64
    requires { 8 * w.0 + 8 ≤ length assignment.now }
    ensures { result ≡ entry assignment.now w.0 }
{
    eight_bytes(assignment, 8 * w.0 as usize)
}

// The n entries from wire w on put together by `or`, so that none of them is above it.
pub fn seen_from(assignment: &[u8], w: WireNumber, n: u64) -> u64
    requires { 8 * (w.0 + n) ≤ length assignment.now }
    ensures { AtMost w.0 n result assignment.now }
{
    let mut seen: u64 = 0;
    for i in 0..n {
        seen = seen | read(assignment, WireNumber(w.0 + i));
    }
    seen
}
