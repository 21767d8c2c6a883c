// The end of a line that asks for rows: a number, the first row and how many, parted by commas and ended by a line feed. Of a
// record that is the whole line, and the number its length in bits.
ghost use Rattle.std.specs.Prelude.{◌≡◌};
ghost use Rattle.listing.specs.Line.{parse_of};

use text::field::read_field;

// What a line says, in three numbers below 1,000,000,000.
#[derive(Clone, Copy, Debug, PartialEq, Eq)]
pub struct Parsed {
    pub leading: u64,
    pub first: u64,
    pub many: u64,
}

// The three numbers of a line.
pub fn parse(s: &[u8]) -> Option<Parsed>
    ensures { result ≡ parse_of s.now }
{
    let leading = read_field(s, 0, b',')?;
    let first = read_field(s, leading.bytes, b',')?;
    let many = read_field(s, leading.bytes + first.bytes, b'\n')?;
    if leading.bytes + first.bytes + many.bytes < s.len() {
        return None;
    }
    Some(Parsed {
        leading: leading.value,
        first: first.value,
        many: many.value,
    })
}
