// The check of an assignment between two bounds against a digest.
ghost use Rattle.std.specs.Prelude.{◌≡◌};
ghost use Rattle.axles.specs.Check.{axles_check_answer};

use acceptance::circuit_check::check_circuit;
use circuit::band::Band;
use refusal::outcome::Refusal;

// The check of an assignment of a record with axles between two bounds against a digest.
#[tactic(auto, using(circuit::proofs::axles::Bounds::bounds_iff), unfolding(crate::specs::Check::axles_check_answer))]
pub fn check(lower: u64, upper: u64, digest: &[u8], assignment: &[u8]) -> Result<(), Refusal>
    ensures { result ≡ axles_check_answer lower upper digest.now assignment.now }
{
    let band = Band::new(lower, upper).ok_or(Refusal::BoundsOutOfRange)?;
    check_circuit(band.circuit(), digest, assignment)
}
