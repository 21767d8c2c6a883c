// The check of an assignment against a digest that all circuits share.
#![tactic(auto)]

pub mod circuit_check;
