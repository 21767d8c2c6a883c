// The numbers of a line: read from digits, and written in digits.
ghost use Rattle.std.specs.Prelude.{◌≡◌, ◌+◌, ◌<◌, ◌≤◌, ◌^◌, length};
ghost use Rattle.encoding.specs.Written.{Written};
ghost use Rattle.passage.specs.Format.{number_in};
ghost use Rattle.passage.specs.Read.{low_answer};
ghost use Rattle.passage.specs.Runs.{Digits};
ghost use Rattle.passage.specs.Write.{numeral};

use crate::places::Field;
use refusal::outcome::Refusal;

// The fields that are numbers.
#[derive(Clone, Copy, Debug, PartialEq, Eq)]
pub struct Numbers {
    pub lane: u64,
    // Seconds since 1970 UTC.
    pub time: u64,
    pub class: u64,
    pub axles: u64,
}

// Refusal 17 of a lane and a number of axles, or none.
pub fn ask_low(lane: u64, axles: u64) -> Result<(), Refusal>
    ensures { result ≡ low_answer lane axles }
{
    if lane == 0 || axles < 2 {
        return Err(Refusal::LaneOrAxlesTooLow);
    }
    Ok(())
}

// The number that the digits of a field write.
pub fn number_in(line: &[u8], field: Field) -> u64
    requires room { field.first + field.many ≤ length line.now }
    requires short { field.many ≤ 10 }
    requires digits { Digits line.now field.first field.many }
    ensures value { result ≡ number_in field line.now }
    ensures below { result < 10 ^ field.many }
{
    let mut value = 0;
    for c in &line[field.first..field.first + field.many] {
        value = 10 * value + u64::from(*c - b'0');
    }
    value
}

// The digits of x at a field's places.
pub fn put_numeral(out: &mut [u8], field: Field, x: u64)
    requires room { field.first + field.many ≤ length out.old }
    requires fits { x < 10 ^ field.many }
    ensures { Written field.first (numeral field.many x) out.old out.new }
{
    let mut rest = x;
    // By the place: of a loop over `iter_mut().rev()` it is not known what it leaves.
    for i in (0..field.many).rev() {
        out[field.first + i] = b'0' + (rest % 10) as u8;
        rest /= 10;
    }
}
