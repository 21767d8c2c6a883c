// One row of a record by its number.
ghost use Rattle.std.specs.Prelude.{◌≡◌, length};
ghost use Rattle.record.specs.RowAnswer.{row_answer, row_left};

use circuit::circuits::Circuit;
use circuit::given_row::give_row;
use forms::terms::Counts;
use limits::limit::ask_length;
use refusal::numbers::RowNumber;
use refusal::outcome::Refusal;

// The row of a number for a record of so many bits, into the front of `out`: the terms of A, then B, then C.
#[tactic(auto, using(limits::proofs::limit::Tests::length_refused, limits::proofs::limit::Tests::length_passed, limits::proofs::limit::Tests::length_range), unfolding(crate::specs::RowAnswer::row_answer, circuit::specs::GivenRow::given_left))]
pub fn row(limit: u64, bits: u64, row: RowNumber, out: &mut [u8]) -> Result<Counts, Refusal>
    ensures value { result ≡ row_answer limit bits row.0 (length out.old) }
    ensures out_after { out.new ≡ row_left result bits row.0 out.old }
{
    ask_length(limit, bits)?;
    give_row(Circuit::Record { bits }, row, out)
}
