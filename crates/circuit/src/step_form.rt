// The form of a row, by its place.
ghost use Rattle.std.specs.Prelude.{◌≡◌};
ghost use Rattle.circuit.specs.Circuit.{form_of};
ghost use Rattle.circuit.specs.Ranges.{Allowed, InCircuit};
ghost use Rattle.forms.specs.Terms.{Fit};

pub mod frame;
pub mod message;

use crate::circuits::{Circuit, appended_form, message_of};
use crate::wire::placed_block;
use block::place::Place;
use block::step::Step;
use forms::form::Form;
use frame::{digest_form, start_form};
use message::message_form;

// The form of the row at a place of a circuit.
#[tactic(auto, unfolding(crate::specs::Circuit::form_of, crate::specs::Circuit::begins))]
pub fn form_of(circuit: Circuit, place: Place) -> Form
    requires { Allowed circuit × InCircuit circuit place }
    ensures { (result ≡ form_of circuit place.block place.step place.index place.line) × Fit result }
{
    let i = place.block;
    let j = place.index;
    let l = place.line;
    let message = message_of(circuit, i);
    let block = placed_block(message, i);
    // Each step has a form of its own, so the step is asked here and nowhere else.
    match place.step {
        Step::Start => start_form(j, l),
        Step::Message => message_form(circuit, message, i, 32 * j + l),
        Step::Q => block.q_form(j, l),
        Step::P1 => block.p1_form(j, l),
        Step::W => block.w_form(j, l),
        Step::WPrime => block.w_prime_form(j, l),
        Step::U => block.u_form(j, l),
        Step::Ss2 => block.ss2_form(j, l),
        Step::Ff => block.ff_form(j, l),
        Step::Gg => block.gg_form(j, l),
        Step::Tt1 => block.tt1_form(j, l),
        Step::Tt2 => block.tt2_form(j, l),
        Step::P0 => block.p0_form(j, l),
        Step::Result => block.result_form(j, l),
        Step::Digest => digest_form(circuit, j, l),
        Step::Appended => appended_form(circuit, j),
    }
}
