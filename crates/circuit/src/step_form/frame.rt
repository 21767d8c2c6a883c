// The rows around the blocks: the start words, which a message begins with, and the digest, which the last block ends in.
ghost use Rattle.std.specs.Prelude.{◌≡◌, ◌-◌};
ghost use Rattle.block.specs.Ranges.{InStep};
ghost use Rattle.block.specs.declared.step.Step.TheVariants.{Digest, Start};
ghost use Rattle.circuit.specs.Circuit.{digest_form, start_form};
ghost use Rattle.circuit.specs.Circuits.{block_count};
ghost use Rattle.circuit.specs.Ranges.{Allowed};
ghost use Rattle.circuit.specs.Wires.{block_first};
ghost use Rattle.forms.specs.Terms.{Fit};

use crate::circuits::{Circuit, block_count};
use crate::frame::{DIGEST, START, block_first};
use block::wire::RESULT;
use forms::form::Form;
use refusal::numbers::WireNumber;
use sm3::constants::start_word;

// Line l of start word k.
#[tactic(auto, unfolding(crate::specs::Circuit::start_form, sm3::specs::Words::bit))]
pub fn start_form(k: u64, l: u64) -> Form
    requires { InStep 0 Start k l }
    ensures { (result ≡ start_form k l) × Fit result }
{
    let word = start_word(k as usize);
    Form::Fixed {
        w: WireNumber(START + 32 * k + l),
        bit: (word as u64 >> (31 - l)) % 2,
    }
}

// Line l of digest word k, which is the last block's result.
#[tactic(auto, unfolding(crate::specs::Circuit::digest_form))]
pub fn digest_form(circuit: Circuit, k: u64, l: u64) -> Form
    requires { Allowed circuit × InStep 0 Digest k l }
    ensures { (result ≡ digest_form (block_first (block_count circuit - 1)) k l) × Fit result }
{
    let last = block_first(block_count(circuit) - 1);
    Form::Equal {
        x: WireNumber(DIGEST + 32 * k + l),
        y: WireNumber(last.0 + RESULT + 32 * k + l),
    }
}
