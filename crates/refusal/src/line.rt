// The refusals of the programs, which read a line.
ghost use Rattle.std.specs.Prelude.{◌≡◌, ◌<◌};
ghost use Rattle.refusal.specs.LineRefusals.{line_refusal_number};
ghost use Rattle.refusal.specs.declared.line.LineRefusal.TheVariants as line;

use crate::outcome::Refusal;

// Why a line is not answered.
#[derive(Clone, Copy, Debug, PartialEq, Eq)]
pub enum LineRefusal {
    // 1: it is not of its form.
    BadLine,
    // What it asks for is refused.
    Refused(Refusal),
}

impl LineRefusal {
    // The paper's number, a byte.
    pub fn number(self) -> u64
        ensures { (result ≡ line_refusal_number self) × (result < 256) }
    {
        match self {
            LineRefusal::BadLine => 1,
            LineRefusal::Refused(refusal) => refusal.number(),
        }
    }
}

impl From<Refusal> for LineRefusal {
    ghost from_gives = { λ refusal e. e ≡ line.Refused refusal };

    fn from(refusal: Refusal) -> LineRefusal {
        LineRefusal::Refused(refusal)
    }
}
