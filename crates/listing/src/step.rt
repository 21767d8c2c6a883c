// The line that says which step of the hash a row stands for.
ghost use Rattle.std.specs.Prelude.{[], ◌∷◌, ◌++◌, ◌≡◌, ◌+◌, ◌<◌, ◌≤◌, length};
ghost use Rattle.circuit.specs.Places.{row_count};
ghost use Rattle.circuit.specs.Ranges.{Allowed};
ghost use Rattle.listing.specs.Steps.{block_of, form_name, optional, step_line, step_name, step_room, what_text, where_text};
ghost use Rattle.text.specs.Put.{Put};

use block::place::Place;
use block::step::{Step, lines_of};
use circuit::circuits::{Circuit, block_count};
use circuit::place::place_of;
use circuit::step_form::form_of;
use forms::form::Form;
use refusal::numbers::RowNumber;
use text::decimal::put_field;
use text::literal::put_text;

// How many bytes the line of a row takes at most.
pub const STEP_ROOM: usize = 106;

// The block of a place, if its step is of a block.
fn block_of(p: Place) -> Option<u64>
    ensures { result ≡ block_of p }
{
    match p.step {
        Step::Start | Step::Digest | Step::Appended => None,
        _ => Some(p.block),
    }
}

// The name of a step.
fn step_name(step: Step) -> &'static [u8]
    ensures { (result.now ≡ step_name step) × (length result.now ≤ 8) }
{
    match step {
        Step::Start => b"start",
        Step::Message => b"message",
        Step::Q => b"q",
        Step::P1 => b"p1",
        Step::W => b"w",
        Step::WPrime => b"wprime",
        Step::U => b"u",
        Step::Ss2 => b"ss2",
        Step::Ff => b"ff",
        Step::Gg => b"gg",
        Step::Tt1 => b"tt1",
        Step::Tt2 => b"tt2",
        Step::P0 => b"p0",
        Step::Result => b"result",
        Step::Digest => b"digest",
        Step::Appended => b"appended",
    }
}

// The name of a form. A difference is called a sum.
fn form_name(form: Form) -> &'static [u8]
    ensures { (result.now ≡ form_name form) × (length result.now ≤ 12) }
{
    match form {
        Form::Fixed { .. } => b"fixed",
        Form::Bit { .. } => b"bit",
        Form::XorOfTwo { .. } => b"xor of two",
        Form::XorOfThree { .. } => b"xor of three",
        Form::Majority { .. } => b"majority",
        Form::Choice { .. } => b"choice",
        Form::Sum { .. } | Form::Difference { .. } => b"sum",
        Form::Equal { .. } => b"equal",
    }
}

// A name, and the byte after it.
fn put_name(out: &mut [u8], at: usize, name: &[u8], stop: u8) -> usize
    requires { at + length name.now + 1 ≤ length out.old }
    ensures { Put out.old at (name.now ++ (stop ∷ [])) out.new result × (result ≡ at + length name.now + 1) }
{
    let end = put_text(out, at, name);
    out[end] = stop;
    end + 1
}

// A number that may be left out, and the byte after it.
#[tactic(auto, using(text::proofs::Put::put_byte), unfolding(crate::specs::Steps::optional))]
fn put_optional(out: &mut [u8], at: usize, x: Option<u64>, stop: u8) -> usize
    requires { at + 21 ≤ length out.old }
    ensures { Put out.old at (optional x stop) out.new result × (result ≤ at + 21) }
{
    match x {
        Some(x) => put_field(out, at, x, stop),
        None => {
            out[at] = stop;
            at + 1
        }
    }
}

// `row,block,step,` of a row at the place p.
fn put_where(out: &mut [u8], at: usize, row: RowNumber, p: Place) -> usize
    requires { at + 51 ≤ length out.old }
    ensures { Put out.old at (where_text row.0 p) out.new result × (result ≤ at + 51) }
{
    let a = put_field(out, at, row.0, b',');
    let b = put_optional(out, a, block_of(p), b',');
    put_name(out, b, step_name(p.step), b',')
}

// `index,bit,form` of a row at the place p of a form.
fn put_what(out: &mut [u8], at: usize, p: Place, form: Form) -> usize
    requires { at + 55 ≤ length out.old }
    ensures { Put out.old at (what_text p form) out.new result × (result ≤ at + 55) }
{
    let position = p.line / (1 + lines_of(p.step, p.index) / 64);
    let a = put_field(out, at, p.index, b',');
    let b = put_optional(out, a, (position < 34).then_some(position), b',');
    put_name(out, b, form_name(form), b'\n')
}

// The line of a row of a circuit.
pub fn put_step_line(out: &mut [u8], at: usize, circuit: Circuit, row: RowNumber) -> usize
    requires { (at + step_room ≤ length out.old) × Allowed circuit × (row.0 < row_count circuit) }
    ensures { Put out.old at (step_line circuit row.0) out.new result × (result ≤ at + step_room) }
{
    let p = place_of(block_count(circuit), row);
    let form = form_of(circuit, p);
    let middle = put_where(out, at, row, p);
    put_what(out, middle, p, form)
}
