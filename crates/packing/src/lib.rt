// Packed assignments: a bit a wire instead of eight bytes.
#![tactic(auto)]

pub mod pack;
pub mod unpack;
