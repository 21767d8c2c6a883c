// The answer to a claim: a line of length in bits and digest, and packed bytes.
ghost use Rattle.std.specs.Prelude.{◌≡◌, ◌≤◌, length};
ghost use Rattle.claim.specs.Answer.{answer_to, printed};
ghost use Rattle.packing.specs.PackedCheck.{packed_check_answer};
ghost use Rattle.text.specs.Put.{Put};

use crate::line::parse;
use circuit::circuits::Circuit;
use circuit::wire::wire_count;
use limits::limit::OUR_LIMIT;
use packing::unpack::unpack;
use record::check::check;
use refusal::line::LineRefusal;
use refusal::outcome::Refusal;
use text::hex::put_bytes_of_hex;
use text::literal::put_text;
use text::refused::put_refusal;

// The check of packed bytes for records of so many bits against a digest. The entries go into `room`.
fn check_packed(bits: u64, digest: &[u8], packed: &[u8], room: &mut [u8]) -> Result<(), Refusal>
    requires { length room.old ≡ 2887688 }
    ensures { result ≡ packed_check_answer bits digest.now packed.now }
{
    if let Err(refusal) = unpack(OUR_LIMIT, bits, packed, room) {
        return Err(refusal);
    }
    let end = (8 * wire_count(Circuit::Record { bits })) as usize;
    check(OUR_LIMIT, bits, digest, &room[..end])
}

// The answer to the bytes of standard input: the claim is accepted, or refused by 1, 2, 11, 12, 7, 8 or 9. `room` is room for
// the longest assignment.
#[tactic(auto, unfolding(crate::specs::Answer::answer_to))]
pub fn answer_to(input: &[u8], room: &mut [u8]) -> Result<(), LineRefusal>
    requires { length room.old ≡ 2887688 }
    ensures { result ≡ answer_to input.now }
{
    let claim = parse(input).ok_or(LineRefusal::BadLine)?;
    let mut digest = [0u8; 32];
    put_bytes_of_hex(input, claim.digest, &mut digest);
    let packed = claim.digest + 65;
    check_packed(claim.bits, &digest, &input[packed..], room)?;
    Ok(())
}

// The line that is printed for an answer: `accepted`, or the refusal's number.
pub fn put_answer(out: &mut [u8], answer: Result<(), LineRefusal>) -> usize
    requires { 29 ≤ length out.old }
    ensures { Put out.old 0 (printed answer) out.new result × (result ≤ 29) }
{
    match answer {
        Ok(()) => put_text(out, 0, b"accepted\n"),
        Err(refusal) => put_refusal(out, refusal.number()),
    }
}
