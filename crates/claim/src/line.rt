// The line of a claim: `bits,digest` and a line feed, before the packed bytes.
ghost use Rattle.std.specs.Prelude.{◌≡◌};
ghost use Rattle.claim.specs.Line.{parse_of};

use text::field::read_field;
use text::hex::all_hex;

// What the line says: a length in bits below 1,000,000,000, and the place where the digits of the digest begin.
#[derive(Clone, Copy, Debug, PartialEq, Eq)]
pub struct Parsed {
    pub bits: u64,
    pub digest: usize,
}

// The length in bits and the digest's place of the line at the front of s.
pub fn parse(s: &[u8]) -> Option<Parsed>
    ensures { result ≡ parse_of s.now }
{
    let bits = read_field(s, 0, b',')?;
    let digest = bits.bytes;
    if !all_hex(s, digest, 64) {
        return None;
    }
    let end = s.get(digest + 64)?;
    if *end != b'\n' {
        return None;
    }
    Some(Parsed {
        bits: bits.value,
        digest,
    })
}
