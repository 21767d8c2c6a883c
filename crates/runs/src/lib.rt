// Runs of rows that hold because of what their wires are, so that a check passes them by.
#![tactic(auto)]

pub mod appended;
pub mod block_rows;
pub mod by_form;
pub mod candidate;
pub mod held;
pub mod message;
