// Assignments: their entries, and the wires of a block and of a message.
#![tactic(auto)]

pub mod block_wires;
pub mod bounded;
pub mod entry;
pub mod expansion;
pub mod message_wires;
pub mod rounds;
pub mod sum;
pub mod values;
pub mod wires;
