// Numbers and bits as bytes, read from and written into lent buffers.
#![tactic(auto)]

pub mod packed;
pub mod read;
pub mod write;
