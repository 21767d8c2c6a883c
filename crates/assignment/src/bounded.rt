// The test that every entry of an assignment is below a limit, and below the prime.
ghost use Rattle.refusal.specs.Refusals.{done};
ghost use Rattle.std.specs.Prelude.{◌≡◌, ◌-◌, ◌*◌, ◌≤◌, length};
ghost use Rattle.assignment.specs.BelowPrime.{below_prime_answer};
ghost use Rattle.assignment.specs.Bounded.{lowest_not_below};

use crate::entry::{read, seen_from};
use field::P;
use refusal::numbers::WireNumber;
use refusal::outcome::Refusal;

// The lowest of the entries from `from` on and below `to` that is not below the limit, if there is one: they are asked in their order. A
// `find` over the wires is no plainer: its closure needs a `requires` for the entry's place, and its answer a proof beside it.
fn lowest_asked(
    assignment: &[u8],
    from: WireNumber,
    to: WireNumber,
    limit: u64,
) -> Option<WireNumber>
    requires { (from.0 ≤ to.0) × (8 * to.0 ≤ length assignment.now) }
    ensures { result ≡ lowest_not_below limit assignment.now from.0 (to.0 - from.0) }
{
    let end = to.0;
    for w in from.0..end {
        if limit <= read(assignment, WireNumber(w)) {
            return Some(WireNumber(w));
        }
    }
    None
}

// The same. Where all of them put together are below the limit none has to be asked.
fn lowest_in_run(
    assignment: &[u8],
    from: WireNumber,
    to: WireNumber,
    limit: u64,
) -> Option<WireNumber>
    requires { (from.0 ≤ to.0) × (8 * to.0 ≤ length assignment.now) }
    ensures { result ≡ lowest_not_below limit assignment.now from.0 (to.0 - from.0) }
{
    if seen_from(assignment, from, to.0 - from.0) < limit {
        return None;
    }
    lowest_asked(assignment, from, to, limit)
}

// How many entries are put together at once: an entry that is not below the limit has as many asked.
const RUN: u64 = 256;

// The lowest of the first n entries that is not below the limit, if there is one, run by run.
pub fn lowest_not_below(assignment: &[u8], n: u64, limit: u64) -> Option<WireNumber>
    requires { 8 * n ≤ length assignment.now }
    ensures { result ≡ lowest_not_below limit assignment.now 0 n }
{
    let runs = n / RUN;
    for j in 0..runs {
        let lowest = lowest_in_run(
            assignment,
            WireNumber(RUN * j),
            WireNumber(RUN * (j + 1)),
            limit,
        );
        if let Some(wire) = lowest {
            return Some(wire);
        }
    }
    lowest_in_run(assignment, WireNumber(RUN * runs), WireNumber(n), limit)
}

// Refusal 20 for the lowest of the first n entries that is p or more, if there is one.
#[tactic(auto, using(crate::proofs::EntriesBelow::none_refused, crate::proofs::EntriesBelow::lowest_refused))]
pub fn below_prime(assignment: &[u8], n: u64) -> Result<(), Refusal>
    requires { 8 * n ≤ length assignment.now }
    ensures { result ≡ below_prime_answer n assignment.now done }
{
    match lowest_not_below(assignment, n, P) {
        None => Ok(()),
        Some(wire) => Err(Refusal::EntryNotBelowPrime(wire)),
    }
}
