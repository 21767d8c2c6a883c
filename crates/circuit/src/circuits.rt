// The circuits, and what tells one from another: its blocks, the messages that they belong to, the rows of its content's bits, and what
// is appended. No other function asks which circuit it has.
ghost use Rattle.std.specs.Prelude.{true, ◌≡◌, ℕ, ◌+◌, ◌<◌, ◌≤◌};
ghost use Rattle.circuit.specs.Circuit.{message_bit};
ghost use Rattle.circuit.specs.Circuits.{appended_form, appended_rows, appended_wires, block_count, content_form, message_of};
ghost use Rattle.circuit.specs.Frame.{block_first};
ghost use Rattle.circuit.specs.Ranges.{Allowed, OfMessage, most_appended, most_blocks};
ghost use Rattle.forms.specs.Terms.{Fit};
ghost use Rattle.forms.specs.declared.form.Form.TheVariants.{Bit};

use crate::axles::{AXLE_BITS, axle_form};
use crate::band::Band;
use crate::frame::FIRST_BLOCK;
use crate::message::MessageSpan;
use block::wire::BLOCK_WIRES;
use forms::form::Form;
use refusal::numbers::WireNumber;

// Which circuit.
#[derive(Clone, Copy, Debug, PartialEq, Eq)]
pub enum Circuit {
    // That of a record of so many bits.
    Record { bits: u64 },
    // That of a record of 63 bytes whose axles lie between two bounds, ends included.
    Axles { lower: u64, upper: u64 },
}

// How many blocks a circuit has.
#[tactic(auto, unfolding(limits::specs::Blocks::blocks))]
pub fn block_count(circuit: Circuit) -> u64
    requires { Allowed circuit }
    ensures { (result ≡ block_count circuit) × (0 < result) × (result ≤ most_blocks) }
{
    match circuit {
        Circuit::Record { bits } => limits::blocks::block_count(bits),
        Circuit::Axles { .. } => 2,
    }
}

// The message that block i belongs to.
#[tactic(auto, unfolding(limits::specs::Blocks::blocks))]
pub fn message_of(circuit: Circuit, i: u64) -> MessageSpan
    requires { Allowed circuit × (i < block_count circuit) }
    ensures { (result ≡ message_of circuit i) × OfMessage result i }
{
    match circuit {
        Circuit::Record { bits } => MessageSpan { bits, begin: 0 },
        Circuit::Axles { .. } => MessageSpan {
            bits: AXLE_BITS,
            begin: 0,
        },
    }
}

// Bit b of block i, on a wire that is free.
fn free_form(i: u64, b: u64) -> Form
    requires { (i < most_blocks) × (b < 512) }
    ensures { (result ≡ Bit (record { 0 = block_first i + b })) × Fit result }
{
    Form::Bit {
        w: WireNumber(FIRST_BLOCK + BLOCK_WIRES * i + b),
    }
}

// The form of bit b of block i, one of its message's content: a record's wire is free.
pub fn content_form(circuit: Circuit, i: u64, b: u64) -> Form
    requires { Allowed circuit × (i < block_count circuit) × (b < 512) × (message_bit (message_of circuit i) i b < (message_of circuit i).bits) }
    ensures { (result ≡ content_form circuit i b) × Fit result }
{
    match circuit {
        Circuit::Record { .. } | Circuit::Axles { .. } => free_form(i, b),
    }
}

// Whether the content's bits of block i are free: then their rows say no more than that they are bits.
pub fn content_is_free(circuit: Circuit, i: u64) -> bool
    requires { Allowed circuit }
    ensures { result ≡ true → (b : ℕ) → content_form circuit i b ≡ Bit (record { 0 = block_first i + b }) }
{
    match circuit {
        Circuit::Record { .. } | Circuit::Axles { .. } => true,
    }
}

// How many wires are appended.
pub fn appended_wires(circuit: Circuit) -> u64
    requires { Allowed circuit }
    ensures { (result ≡ appended_wires circuit) × (result ≤ most_appended) }
{
    match circuit {
        Circuit::Record { .. } => 0,
        Circuit::Axles { .. } => 22,
    }
}

// How many rows are appended.
pub fn appended_rows(circuit: Circuit) -> u64
    requires { Allowed circuit }
    ensures { (result ≡ appended_rows circuit) × (result ≤ most_appended) }
{
    match circuit {
        Circuit::Record { .. } => 0,
        Circuit::Axles { .. } => 34,
    }
}

// Appended row k. A record has none, and is not asked for one.
pub fn appended_form(circuit: Circuit, k: u64) -> Form
    requires { Allowed circuit × (k < appended_rows circuit) }
    ensures { (result ≡ appended_form circuit k) × Fit result }
{
    match circuit {
        Circuit::Record { .. } => unreachable!(),
        Circuit::Axles { lower, upper } => axle_form(Band { lower, upper }, k),
    }
}
