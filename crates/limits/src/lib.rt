// What is asked of a record's length, of its caller's limit in blocks and of the bytes that it is handed over in.
#![tactic(auto)]

pub mod blocks;
pub mod handed;
pub mod limit;
pub mod record;
