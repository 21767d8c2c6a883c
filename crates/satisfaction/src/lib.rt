// Rows judged by their terms: the loop that finds the lowest row that an assignment does not satisfy.
#![tactic(auto)]

pub mod rows_check;
pub mod sums;
