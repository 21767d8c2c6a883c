// The digest of a record into a lent buffer.
ghost use Rattle.std.specs.Prelude.{◌≡◌, ◌≤◌, ◌++◌, length, drop};
ghost use Rattle.sm3.specs.Digest.{digest_answer, digest_left};
ghost use Rattle.sm3.specs.Message.{bytes_of};

use crate::message::hash;
use crate::state::State;
use encoding::write::put_word;
use limits::handed::ask_record;
use refusal::outcome::Refusal;

// The bytes of a digest.
const DIGEST_BYTES: usize = 32;

// The 32 bytes of a digest at the front of a buffer.
fn put_digest(out: &mut [u8], s: State)
    requires { 32 ≤ length out.old }
    ensures { out.new ≡ bytes_of s ++ drop 32 out.old }
{
    let words = <[u32; 8]>::from(s);
    for (k, word) in words.iter().enumerate() {
        put_word(out, 4 * k, *word);
    }
}

// The digest of a record of so many bits, and of no more blocks than the limit, into the first 32 bytes of `out`.
#[tactic(auto, using(limits::proofs::handed::Asked::handed_stands, limits::proofs::handed::Asked::handed_passed), unfolding(crate::specs::Message::digest_bytes))]
pub fn digest(limit: u64, bits: u64, bytes: &[u8], out: &mut [u8]) -> Result<(), Refusal>
    ensures value { result ≡ digest_answer limit bits bytes.now (length out.old) }
    ensures out_after { out.new ≡ digest_left result bits bytes.now out.old }
{
    let handed = ask_record(limit, bits, bytes)?;
    if out.len() < DIGEST_BYTES {
        return Err(Refusal::BufferTooShort);
    }
    put_digest(out, hash(handed));
    Ok(())
}
