// The refusals that several operations share, with the numbers of rows, wires and bytes that they name.
#![tactic(auto)]

pub mod line;
pub mod numbers;
pub mod outcome;
pub mod packing;
