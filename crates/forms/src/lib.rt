// Words on wires, the row forms, and the terms of a row.
#![tactic(auto)]

pub mod coefficient;
pub mod form;
pub mod part;
pub mod position;
pub mod sort;
pub mod term_bytes;
pub mod terms;
pub mod word_form;
