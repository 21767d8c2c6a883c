// One block of the hash: where its words stand, and the forms of its rows.
#![tactic(auto)]

pub mod expansion_form;
pub mod place;
pub mod placed;
pub mod result_form;
pub mod round_form;
pub mod step;
pub mod wire;
