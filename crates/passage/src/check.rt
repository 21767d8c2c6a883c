// The check of an assignment of a line's length.
ghost use Rattle.std.specs.Prelude.{◌≡◌};
ghost use Rattle.passage.specs.Seal.{check_line_answer};

use crate::seal::LINE_BITS;
use limits::limit::PARTNER_LIMIT;
use refusal::outcome::Refusal;

// Whether the assignment of some line's length belongs to this digest.
pub fn check(digest: &[u8], assignment: &[u8]) -> Result<(), Refusal>
    ensures { result ≡ check_line_answer digest.now assignment.now }
{
    record::check::check(PARTNER_LIMIT, LINE_BITS, digest, assignment)
}
