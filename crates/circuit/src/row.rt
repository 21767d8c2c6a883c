// The form and the terms of a row by its number.
ghost use Rattle.std.specs.Prelude.{◌≡◌, ◌<◌, ◌≤◌};
ghost use Rattle.circuit.specs.Circuit.{form_at, row_at};
ghost use Rattle.circuit.specs.Places.{row_count};
ghost use Rattle.circuit.specs.Ranges.{Allowed};
ghost use Rattle.forms.specs.Shape.{most_terms};
ghost use Rattle.forms.specs.Terms.{Fit, held, term_count};

use crate::circuits::{Circuit, block_count};
use crate::place::place_of;
use crate::step_form::form_of;
use forms::form::Form;
use forms::terms::{RowTerms, fill};
use refusal::numbers::RowNumber;

// The form of a row of a circuit.
pub fn form_at(circuit: Circuit, row: RowNumber) -> Form
    requires { Allowed circuit × (row.0 < row_count circuit) }
    ensures { (result ≡ form_at circuit row.0) × Fit result × (term_count result ≤ most_terms) }
{
    form_of(circuit, place_of(block_count(circuit), row))
}

// The terms of a row of a circuit, each part by rising wire. `terms` is room for them, which a caller makes once: made for each row, it took
// the listing twice the time.
#[tactic(auto, using(crate::proofs::row::SameForm::row_sorted))]
pub fn row_terms(circuit: Circuit, row: RowNumber, terms: &mut RowTerms)
    requires { Allowed circuit × (row.0 < row_count circuit) }
    ensures { terms.new ≡ held (row_at circuit row.0) }
{
    fill(form_at(circuit, row), terms);
    terms.sort();
}
