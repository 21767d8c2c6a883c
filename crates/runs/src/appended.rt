// The appended rows, judged by their forms.
ghost use Rattle.std.specs.Prelude.{◌+◌, ◌*◌, ◌≤◌};
ghost use Rattle.block.specs.Steps.{block_rows};
ghost use Rattle.circuit.specs.Circuits.{appended_rows, block_count};
ghost use Rattle.circuit.specs.Places.{state_rows};
ghost use Rattle.runs.specs.RowsHold.{RowsHold};

use crate::by_form::form_holds;
use crate::candidate::Candidate;
use circuit::circuits::{appended_form, appended_rows};

impl Candidate<'_> {
    // How many appended rows hold, from the first on, as their forms tell.
    pub fn appended_passed(&self) -> u64
        ensures { (result ≤ appended_rows self.now.circuit) × RowsHold self.now.circuit (state_rows + block_rows * block_count self.now.circuit + state_rows) result self.now.assignment.now }
    {
        let rows = appended_rows(self.circuit);
        for k in 0..rows {
            if !form_holds(self.assignment, appended_form(self.circuit, k)) {
                return k;
            }
        }
        rows
    }
}
