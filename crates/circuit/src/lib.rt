// The constraint rows around and over the blocks: circuits, wires, messages, places, the row of a number.
#![tactic(auto)]

pub mod axles;
pub mod band;
pub mod circuits;
pub mod frame;
pub mod given_row;
pub mod message;
pub mod place;
pub mod row;
pub mod step_form;
pub mod wire;
