// A row of a circuit, given by its number.
ghost use Rattle.std.specs.Prelude.{◌≡◌, length};
ghost use Rattle.circuit.specs.GivenRow.{given_left, given_row};
ghost use Rattle.circuit.specs.Ranges.{Allowed};

use crate::circuits::Circuit;
use crate::place::row_count;
use crate::row::row_terms;
use forms::term_bytes::put_terms;
use forms::terms::{Counts, RowTerms};
use refusal::numbers::RowNumber;
use refusal::outcome::Refusal;

// The bytes that every row has room in: 12 for each of 163 terms.
pub const ROW_BYTES: usize = 1956;

// The row of a number, into the front of `out`: the terms of A, then B, then C, and how many each has; or refusal 3 or 4.
#[tactic(auto, using(crate::proofs::given_row::GivenRows::row_outside, crate::proofs::given_row::GivenRows::room_short, crate::proofs::given_row::GivenRows::row_fits, crate::proofs::given_row::GivenRows::row_residues, crate::proofs::given_row::GivenRows::row_given), unfolding(crate::specs::GivenRow::given_left))]
pub fn give_row(circuit: Circuit, row: RowNumber, out: &mut [u8]) -> Result<Counts, Refusal>
    requires { Allowed circuit }
    ensures value { result ≡ given_row circuit row.0 (length out.old) }
    ensures out_after { out.new ≡ given_left result circuit row.0 out.old }
{
    let count = row_count(circuit);
    let k = row.0;
    if count <= k {
        return Err(Refusal::RowOutOfRange);
    }
    if out.len() < ROW_BYTES {
        return Err(Refusal::BufferTooShort);
    }
    let mut terms = RowTerms::new();
    row_terms(circuit, row, &mut terms);
    put_terms(&terms, out);
    Ok(terms.counts())
}
