// A line's fields. The plate and the blind are bytes 20 to 29 and 31 to 62 of the line itself.
ghost use Rattle.std.specs.Prelude.{◌≡◌};
ghost use Rattle.passage.specs.Read.{read_answer};

use crate::line::ask_line;
use crate::numbers::{Numbers, number_in};
use crate::places::{AXLES, CLASS, LANE, TIME};
use refusal::outcome::Refusal;

// Reads a line.
#[tactic(auto, using(crate::proofs::Answers::digits_read), unfolding(crate::specs::Read::read_answer, crate::specs::Read::numbers_in))]
pub fn read(line: &[u8]) -> Result<Numbers, Refusal>
    ensures { result ≡ read_answer line.now }
{
    ask_line(line)?;
    Ok(Numbers {
        lane: number_in(line, LANE),
        time: number_in(line, TIME),
        class: number_in(line, CLASS),
        axles: number_in(line, AXLES),
    })
}
