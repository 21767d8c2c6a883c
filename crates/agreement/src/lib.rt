// Words read off the entries of an assignment, and the wires of a block held against what it computes: what the producer writes is compared
// here. The two are no twins: the one leaves a buffer that its contract is about, the other stops at the first wire that differs and counts rows.
#![tactic(auto)]

pub mod expansion;
pub mod past_expansion;
pub mod rounds;
pub mod wires;
pub mod word_read;
