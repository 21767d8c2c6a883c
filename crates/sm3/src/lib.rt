// SM3 by GB/T 32905-2016: the digest of a record of 0 to 8,127 bits.
#![tactic(auto)]

pub mod compression;
pub mod constants;
pub mod digest;
pub mod expansion;
pub mod message;
pub mod round;
pub mod rounds;
pub mod state;
pub mod words;
