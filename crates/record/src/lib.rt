// The operations on a record: one row, the whole assignment, and the check of an assignment against a digest.
#![tactic(auto)]

pub mod check;
pub mod produce;
pub mod row;
pub mod space;
