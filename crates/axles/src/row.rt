// One row of the circuit of axles between two bounds, by its number.
ghost use Rattle.std.specs.Prelude.{◌≡◌, length};
ghost use Rattle.axles.specs.RowAnswer.{axles_row_answer, axles_row_left};

use circuit::band::Band;
use circuit::given_row::give_row;
use forms::terms::Counts;
use refusal::numbers::RowNumber;
use refusal::outcome::Refusal;

// The row of a number for two bounds, into the front of `out`: the terms of A, then B, then C.
#[tactic(auto, using(circuit::proofs::axles::Bounds::bounds_iff), unfolding(crate::specs::RowAnswer::axles_row_answer, circuit::specs::GivenRow::given_left))]
pub fn row(lower: u64, upper: u64, row: RowNumber, out: &mut [u8]) -> Result<Counts, Refusal>
    ensures value { result ≡ axles_row_answer lower upper row.0 (length out.old) }
    ensures out_after { out.new ≡ axles_row_left result lower upper row.0 out.old }
{
    let band = Band::new(lower, upper).ok_or(Refusal::BoundsOutOfRange)?;
    give_row(band.circuit(), row, out)
}
