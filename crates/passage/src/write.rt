// A line written from its fields.
ghost use Rattle.std.specs.Prelude.{List, [], ◌∷◌, ◌++◌, ◌≡◌, ℕ, ◌+◌, ◌<◌, ◌≤◌, ◌^◌, length, OnOk};
ghost use Rattle.encoding.specs.Written.{Written};
ghost use Rattle.passage.specs.Format.{allowed_at};
ghost use Rattle.passage.specs.Front.{Fit, front};
ghost use Rattle.passage.specs.Runs.{asked};
ghost use Rattle.passage.specs.Write.{line_of, numeral, write_answer, write_left};
ghost use Rattle.passage.specs.declared.numbers.Numbers.{Numbers};
ghost use Rattle.text.specs.Text.{comma};

use crate::line::ask_tail;
use crate::numbers::{Numbers, ask_low, put_numeral};
use crate::places::{AXLES, BLIND, CLASS, Field, LANE, LAST_COMMA, LINE_LENGTH, PLATE, TIME};
use refusal::numbers::ByteNumber;
use refusal::outcome::Refusal;

// Refusal 16 of the first place of a field.
fn wrong_field(field: Field) -> Result<(), Refusal>
    ensures { result ≡ Err (Refusal.WrongByte (record { 0 = field.first })) }
{
    Err(Refusal::WrongByte(ByteNumber(field.first as u64)))
}

// Refusal 16 of the first number that is too great for its digits or class 0, or none.
#[tactic(auto, using(crate::proofs::NumbersAsked::lane_wrong, crate::proofs::NumbersAsked::time_wrong, crate::proofs::NumbersAsked::class_none, crate::proofs::NumbersAsked::class_wrong, crate::proofs::NumbersAsked::axles_wrong, crate::proofs::NumbersAsked::none_wrong))]
fn ask_numbers(numbers: Numbers) -> Result<(), Refusal>
    ensures value { (p b : List ℕ) → result ≡ asked (allowed_at (line_of numbers p b)) 0 20 }
    ensures fit { OnOk result (Fit numbers) }
{
    if 999 < numbers.lane {
        return wrong_field(LANE);
    }
    if 9999999999 < numbers.time {
        return wrong_field(TIME);
    }
    if numbers.class == 0 || 9 < numbers.class {
        return wrong_field(CLASS);
    }
    if 99 < numbers.axles {
        return wrong_field(AXLES);
    }
    Ok(())
}

// The digits of x at a field's places, and a comma behind them.
fn put_number(out: &mut [u8], field: Field, x: u64)
    requires room { field.first + field.many < length out.old }
    requires fits { x < 10 ^ field.many }
    ensures { Written field.first (numeral field.many x ++ (comma ∷ [])) out.old out.new }
{
    put_numeral(out, field, x);
    out[field.first + field.many] = b',';
}

// The numbers, which fit their digits, each with a comma behind it.
fn put_numbers(numbers: Numbers, out: &mut [u8])
    requires fit { Fit numbers }
    requires room { 20 ≤ length out.old }
    ensures { Written 0 (front numbers) out.old out.new }
{
    put_number(out, LANE, numbers.lane);
    put_number(out, TIME, numbers.time);
    put_number(out, CLASS, numbers.class);
    put_number(out, AXLES, numbers.axles);
}

// The plate, the comma behind it and the blind, which are asked where they stand: refusal 16 of the lowest wrong byte, or none.
fn put_tail(plate: &[u8], blind: &[u8], line: &mut [u8]) -> Result<(), Refusal>
    requires plate { length plate.now ≡ 10 }
    requires blind { length blind.now ≡ 32 }
    requires room { length line.old ≡ 63 }
    ensures value { (n : Numbers) → result ≡ asked (allowed_at (line_of n plate.now blind.now)) 20 43 }
    ensures line_after { Written 20 (plate.now ++ (comma ∷ blind.now)) line.old line.new }
{
    line[PLATE.first..LAST_COMMA.first].copy_from_slice(plate);
    line[LAST_COMMA.first] = b',';
    line[BLIND.first..LINE_LENGTH].copy_from_slice(blind);
    ask_tail(line)
}

// Writes the line of the fields into the front of `out`.
#[tactic(auto, using(crate::proofs::Writing::write_parts), unfolding(crate::specs::Write::write_answer))]
pub fn write(numbers: Numbers, plate: &[u8], blind: &[u8], out: &mut [u8]) -> Result<(), Refusal>
    ensures value { result ≡ write_answer numbers plate.now blind.now (length out.old) }
    ensures out_after { out.new ≡ write_left result numbers plate.now blind.now out.old }
{
    // By their lengths: as arrays they would spare one function its `requires`, and each need a conversion here.
    if plate.len() != PLATE.many || blind.len() != BLIND.many {
        return Err(Refusal::LineNot63);
    }
    ask_numbers(numbers)?;
    let mut line = [0; LINE_LENGTH];
    put_tail(plate, blind, &mut line)?;
    ask_low(numbers.lane, numbers.axles)?;
    if out.len() < LINE_LENGTH {
        return Err(Refusal::BufferTooShort);
    }
    put_numbers(numbers, &mut line);
    out[..LINE_LENGTH].copy_from_slice(&line);
    Ok(())
}
