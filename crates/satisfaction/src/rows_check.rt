// The rows of a circuit, held against an assignment. The rows are the outer loop, the terms of a row the inner one, and a label leaves both at
// the first row that fails: so the specification has the loop.
ghost use Rattle.std.specs.Prelude.{◌≡◌};
ghost use Rattle.assignment.specs.Assignment.{entry};
ghost use Rattle.circuit.specs.Circuit.{row_at};
ghost use Rattle.circuit.specs.Places.{row_count};
ghost use Rattle.satisfaction.specs.Lowest.{lowest};

use crate::sums::{Sums, add_term, part_product, term_value};
use circuit::place::row_count;
use circuit::row::form_at;
use forms::terms::{RowTerms, fill};
use refusal::numbers::RowNumber;
use runs::by_form::form_holds;
use runs::candidate::Candidate;

// The lowest row of a circuit that is not satisfied, if there is one: the rows outside, the terms of each row inside. Rows that hold by
// what a run of wires is, or as their form tells, are passed by.
pub fn lowest_unsatisfied(candidate: &Candidate) -> Option<RowNumber>
    ensures { result ≡ lowest (entry candidate.now.assignment.now) (row_at candidate.now.circuit) 0 (row_count candidate.now.circuit) }
{
    let end = row_count(candidate.circuit);
    let mut terms = RowTerms::new();
    let mut k = 0;
    'rows: loop {
        if k == end {
            break 'rows None;
        }
        let held = candidate.rows_held(RowNumber(k));
        if 0 < held {
            k += held;
            continue 'rows;
        }
        let form = form_at(candidate.circuit, RowNumber(k));
        if form_holds(candidate.assignment, form) {
            k += 1;
            continue 'rows;
        }
        fill(form, &mut terms);
        let counts = terms.counts();
        let count = counts.a + counts.b + counts.c;
        let mut sums = Sums { a: 0, b: 0, c: 0 };
        let mut t = 0;
        loop {
            if t == count {
                if part_product(sums.a, sums.b) != sums.c {
                    break 'rows Some(RowNumber(k));
                }
                break;
            }
            sums = add_term(
                sums,
                counts,
                t,
                term_value(candidate.assignment, terms.term(t)),
            );
            t += 1;
        }
        k += 1;
    }
}
