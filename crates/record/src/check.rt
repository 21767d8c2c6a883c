// The check of an assignment against a digest.
ghost use Rattle.std.specs.Prelude.{◌≡◌};
ghost use Rattle.record.specs.Check.{check_answer};

use acceptance::circuit_check::check_circuit;
use circuit::circuits::Circuit;
use limits::limit::ask_length;
use refusal::outcome::Refusal;

// The check of an assignment for a record of so many bits against a digest.
#[tactic(auto, using(limits::proofs::limit::Tests::length_stands, limits::proofs::limit::Tests::length_next, limits::proofs::limit::Tests::length_range), unfolding(crate::specs::Check::check_answer))]
pub fn check(limit: u64, bits: u64, digest: &[u8], assignment: &[u8]) -> Result<(), Refusal>
    ensures { result ≡ check_answer limit bits digest.now assignment.now }
{
    ask_length(limit, bits)?;
    check_circuit(Circuit::Record { bits }, digest, assignment)
}
