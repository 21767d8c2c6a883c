// The passage product: passage lines read, written, sealed and checked, on top of the row library.
#![tactic(auto)]

pub mod check;
pub mod format;
pub mod line;
pub mod numbers;
pub mod places;
pub mod read;
pub mod seal;
pub mod write;
