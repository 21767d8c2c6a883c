// What the program `packed` reads and answers.
#![tactic(auto)]

pub mod answer;
pub mod line;
pub mod program;
