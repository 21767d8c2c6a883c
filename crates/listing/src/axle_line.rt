// The line that asks for rows of the axle circuit: the lower bound and a comma, and then three numbers, of which the first is the
// upper bound.
ghost use Rattle.std.specs.Prelude.{◌≡◌};
ghost use Rattle.listing.specs.AxleLine.{parse_axles_of};

use crate::line::parse;
use text::field::read_field;

// What a line says, in four numbers below 1,000,000,000.
#[derive(Clone, Copy, Debug, PartialEq, Eq)]
pub struct ParsedAxles {
    pub lower: u64,
    pub upper: u64,
    pub first: u64,
    pub many: u64,
}

// The four numbers of a line.
pub fn parse_axles(s: &[u8]) -> Option<ParsedAxles>
    ensures { result ≡ parse_axles_of s.now }
{
    let lower = read_field(s, 0, b',')?;
    let others = parse(&s[lower.bytes..])?;
    Some(ParsedAxles {
        lower: lower.value,
        upper: others.leading,
        first: others.first,
        many: others.many,
    })
}
