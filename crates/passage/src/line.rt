// What is asked of a line before anything is made of it.
ghost use Rattle.std.specs.Prelude.{◌≡◌, ◌+◌, ◌<◌, ◌≤◌, length};
ghost use Rattle.passage.specs.Format.{allowed_at, fits, kind_at};
ghost use Rattle.passage.specs.Read.{bytes_answer, line_answer, low_answer};
ghost use Rattle.passage.specs.Runs.{Run, asked, plate_fits};
ghost use Rattle.passage.specs.declared.format.Kind.TheVariants.{Comma};

use crate::format::Kind;
use crate::numbers::{ask_low, number_in};
use crate::places::{AXLES, BLIND, CLASS, Field, LANE, LAST_COMMA, LINE_LENGTH, PLATE, TIME};
use refusal::numbers::ByteNumber;
use refusal::outcome::Refusal;

// Refusal 16 of the lowest of some places whose byte may not stand at a place of this kind, or none.
pub fn ask_kind(kind: Kind, s: &[u8], places: Field) -> Result<(), Refusal>
    requires { places.first + places.many ≤ length s.now }
    ensures { result ≡ asked (fits kind s.now) places.first places.many }
{
    for k in places.first..places.first + places.many {
        if !kind.allows(s[k.saturating_sub(1)], s[k]) {
            return Err(Refusal::WrongByte(ByteNumber(k as u64)));
        }
    }
    Ok(())
}

// .. of the 10 places of the plate that begins at `from`. Inlined by force too, so that its bounds are constants where a line is asked.
#[tactic(auto, using(crate::proofs::InParts::plate_parts))]
#[inline(always)]
pub fn ask_plate(s: &[u8], from: usize) -> Result<(), Refusal>
    requires { from + 10 ≤ length s.now }
    ensures { result ≡ asked (plate_fits from s.now) from 10 }
{
    ask_kind(
        Kind::PlateFirst,
        s,
        Field {
            first: from,
            many: 1,
        },
    )?;
    ask_kind(
        Kind::PlateNext,
        s,
        Field {
            first: from + 1,
            many: 9,
        },
    )
}

// .. of a field, whose places are of one kind.
#[tactic(auto, using(crate::proofs::PlaceKinds::run_asked))]
fn ask_run(kind: Kind, line: &[u8], field: Field) -> Result<(), Refusal>
    requires room { field.first + field.many ≤ length line.now }
    requires kind { Run kind field.first (field.first + field.many) }
    ensures { result ≡ asked (allowed_at line.now) field.first field.many }
{
    ask_kind(kind, line, field)
}

// .. of a field or of the comma behind it.
#[tactic(auto, using(crate::proofs::Asked::asked_parts, crate::proofs::PlaceKinds::run_one))]
fn ask_field(kind: Kind, line: &[u8], field: Field) -> Result<(), Refusal>
    requires room { field.first + field.many < length line.now }
    requires kind { Run kind field.first (field.first + field.many) }
    requires comma { kind_at (field.first + field.many) ≡ Comma }
    ensures { result ≡ asked (allowed_at line.now) field.first (field.many + 1) }
{
    ask_run(kind, line, field)?;
    let end = field.first + field.many;
    ask_run(
        Kind::Comma,
        line,
        Field {
            first: end,
            many: 1,
        },
    )
}

// .. of the plate, the comma behind it or the blind. Inlined by force: with a call, a wrong field takes `write` 37 ns, not 35.
#[tactic(auto, using(crate::proofs::InParts::tail_asked, crate::proofs::PlaceKinds::comma_run, crate::proofs::PlaceKinds::blind_run))]
#[inline(always)]
pub fn ask_tail(line: &[u8]) -> Result<(), Refusal>
    requires { length line.now ≡ 63 }
    ensures { result ≡ asked (allowed_at line.now) 20 43 }
{
    ask_plate(line, PLATE.first)?;
    ask_run(Kind::Comma, line, LAST_COMMA)?;
    ask_run(Kind::Hex, line, BLIND)
}

// .. of a line.
#[tactic(auto, using(crate::proofs::InParts::line_parts, crate::proofs::PlaceKinds::lane_run, crate::proofs::PlaceKinds::time_run, crate::proofs::PlaceKinds::class_run, crate::proofs::PlaceKinds::axles_run), unfolding(crate::specs::Format::kind_at))]
fn ask_places(line: &[u8]) -> Result<(), Refusal>
    requires { length line.now ≡ 63 }
    ensures { result ≡ asked (allowed_at line.now) 0 63 }
{
    ask_field(Kind::Digit, line, LANE)?;
    ask_field(Kind::Digit, line, TIME)?;
    ask_field(Kind::Class, line, CLASS)?;
    ask_field(Kind::Digit, line, AXLES)?;
    ask_tail(line)
}

// The refusal of a line, if there is one.
#[tactic(auto, using(crate::proofs::Answers::line_asked, crate::proofs::Answers::asked_lane, crate::proofs::Answers::asked_axles), unfolding(crate::specs::Read::line_answer))]
pub fn ask_line(line: &[u8]) -> Result<(), Refusal>
    ensures { result ≡ line_answer line.now }
{
    if line.len() != LINE_LENGTH {
        return Err(Refusal::LineNot63);
    }
    ask_places(line)?;
    ask_low(number_in(line, LANE), number_in(line, AXLES))
}
