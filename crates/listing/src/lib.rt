// What the programs `rows`, `steps`, `axle_rows` and `axle_steps` read and print.
#![tactic(auto)]

pub mod axle_line;
pub mod line;
pub mod program;
pub mod progress;
pub mod request;
pub mod step;
pub mod term;
