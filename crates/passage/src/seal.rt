// A line's digest and its assignment.
ghost use Rattle.std.specs.Prelude.{◌≡◌, length};
ghost use Rattle.passage.specs.Seal.{assignment_of_line, digest_of_line, seal_answer};

use crate::line::ask_line;
use crate::places::LINE_LENGTH;
use limits::limit::PARTNER_LIMIT;
use record::produce::produce;
use refusal::outcome::Refusal;

// The bits of a line.
pub const LINE_BITS: u64 = 8 * LINE_LENGTH as u64;

// The bytes of a digest.
const DIGEST_BYTES: usize = 32;

// The bytes of a line's assignment, 8 a wire.
const ASSIGNMENT_BYTES: usize = 364552;

// Seals a line: its digest into the front of `digest`, its assignment into the front of `assignment`. Both are measured before
// either is written.
#[tactic(auto, using(crate::proofs::Sealing::seal_refused, crate::proofs::Sealing::digest_short, crate::proofs::Sealing::assignment_short, crate::proofs::Sealing::seal_produced, crate::proofs::Sealing::right_digested, crate::proofs::Sealing::right_produced, crate::proofs::Sealing::assignment_bytes))]
pub fn seal(line: &[u8], digest: &mut [u8], assignment: &mut [u8]) -> Result<(), Refusal>
    ensures value { result ≡ seal_answer line.now (length digest.old) (length assignment.old) }
    ensures digest_after { digest.new ≡ digest_of_line result line.now digest.old }
    ensures assignment_after { assignment.new ≡ assignment_of_line result line.now assignment.old }
{
    ask_line(line)?;
    if digest.len() < DIGEST_BYTES {
        return Err(Refusal::BufferTooShort);
    }
    if assignment.len() < ASSIGNMENT_BYTES {
        return Err(Refusal::BufferTooShort);
    }
    // Both are long enough, so neither refuses.
    let _ = sm3::digest::digest(PARTNER_LIMIT, LINE_BITS, line, digest);
    produce(PARTNER_LIMIT, LINE_BITS, line, assignment)
}
