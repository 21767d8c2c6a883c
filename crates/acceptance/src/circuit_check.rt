// The check of an assignment of a circuit against a digest: what every circuit's check asks, behind the refusals of its own.
ghost use Rattle.std.specs.Prelude.{◌≡◌, ℕ, ◌+◌, ◌*◌, ◌<◌, ◌≤◌, length};
ghost use Rattle.assignment.specs.Assignment.{entry};
ghost use Rattle.circuit.specs.Ranges.{Allowed};
ghost use Rattle.encoding.specs.Bits.{bit_of_bytes};
ghost use Rattle.acceptance.specs.Check.{circuit_check, same};

use assignment::bounded::below_prime;
use assignment::entry::read;
use circuit::circuits::Circuit;
use circuit::wire::wire_count;
use encoding::read::bit_at;
use refusal::numbers::WireNumber;
use refusal::outcome::Refusal;
use runs::candidate::Candidate;
use satisfaction::rows_check::lowest_unsatisfied;

// Whether each digest wire is its bit of the digest.
fn digest_agrees(digest: &[u8], assignment: &[u8]) -> bool
    requires { (length digest.now ≡ 32) × (8 * 257 ≤ length assignment.now) }
    ensures { result ≡ same 256 (λ (k : ℕ). entry assignment.now (1 + k)) (bit_of_bytes digest.now) }
{
    (0..256).all(
        |k|
            requires { (k < 256) × (length digest.now ≡ 32) × (8 * 257 ≤ length assignment.now) }
        { read(assignment, WireNumber(1 + k)) == bit_at(digest, k) },
    )
}

// The check of an assignment of a circuit against a digest.
#[tactic(auto, using(crate::proofs::circuit_check::Refusals::refusal_5, crate::proofs::circuit_check::Refusals::refusal_6, crate::proofs::circuit_check::Refusals::refusal_20, crate::proofs::circuit_check::Refusals::refusal_7, crate::proofs::circuit_check::Refusals::refusal_8, crate::proofs::circuit_check::Refusals::refusal_9, crate::proofs::circuit_check::Refusals::no_refusal, assignment::proofs::EntriesBelow::below_done))]
pub fn check_circuit(circuit: Circuit, digest: &[u8], assignment: &[u8]) -> Result<(), Refusal>
    requires { Allowed circuit }
    ensures { result ≡ circuit_check circuit digest.now assignment.now }
{
    if digest.len() != 32 {
        return Err(Refusal::DigestNot32);
    }
    let wires = wire_count(circuit);
    if assignment.len() as u64 != 8 * wires {
        return Err(Refusal::WrongLength);
    }
    below_prime(assignment, wires)?;
    if read(assignment, WireNumber(0)) != 1 {
        return Err(Refusal::WireZero);
    }
    if !digest_agrees(digest, assignment) {
        return Err(Refusal::DigestWire);
    }
    let candidate = Candidate {
        circuit,
        assignment,
    };
    match lowest_unsatisfied(&candidate) {
        None => Ok(()),
        Some(row) => Err(Refusal::Unsatisfied(row)),
    }
}
