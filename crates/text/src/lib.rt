// What it takes to read and write lines.
#![tactic(auto)]

pub mod decimal;
pub mod field;
pub mod hex;
pub mod literal;
pub mod refused;
