// The operations on a record with axles: one row, the whole assignment, and the check of an assignment, each between two bounds. They ask other
// things than a record's; what follows is shared (`give_row`, `put_assignment`, `check_circuit`).
#![tactic(auto)]

pub mod band;
pub mod check;
pub mod produce;
pub mod row;
