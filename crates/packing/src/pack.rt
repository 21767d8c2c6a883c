// An assignment packed, a bit a wire. The wires of a record are words of 32 and one wire more.
ghost use Rattle.std.specs.Prelude.{◌≡◌, ℕ, ◌*◌, ◌%◌, ◌<◌, ◌≤◌, length};
ghost use Rattle.assignment.specs.Assignment.{entry};
ghost use Rattle.assignment.specs.BelowPrime.{below_prime_answer};
ghost use Rattle.encoding.specs.Bits.{bytes_of_bits};
ghost use Rattle.encoding.specs.Packed.{packed_bytes, packed_length};
ghost use Rattle.encoding.specs.Written.{Written};
ghost use Rattle.packing.specs.Pack.{bits_answer, pack_answer, pack_left};

use agreement::word_read::number_from;
use assignment::bounded::{below_prime, lowest_not_below};
use assignment::entry::read;
use circuit::circuits::Circuit;
use circuit::wire::wire_count;
use encoding::packed::packed_length;
use encoding::write::put_word;
use limits::limit::ask_length;
use refusal::numbers::WireNumber;
use refusal::outcome::Refusal;

// Refusal 20, or else 10, for the lowest of the first n entries that calls for it, if there is one. Bits are below the prime, so the
// entries of an honest assignment are read through only once.
#[tactic(auto, using(crate::proofs::pack::EntriesAsked::asked_none, crate::proofs::pack::EntriesAsked::asked_bit))]
fn entries_asked(assignment: &[u8], n: u64) -> Result<(), Refusal>
    requires { 8 * n ≤ length assignment.now }
    ensures { result ≡ below_prime_answer n assignment.now (bits_answer n assignment.now) }
{
    let Some(wire) = lowest_not_below(assignment, n, 2) else {
        return Ok(());
    };
    below_prime(assignment, n)?;
    Err(Refusal::EntryNotBit(wire))
}

// The first words of an assignment, whose wires are bits, four bytes each. They are written from the last on: when all words
// have just been read, the last ones are still at hand.
fn put_words(assignment: &[u8], words: usize, out: &mut [u8])
    requires { (256 * words ≤ length assignment.now) × (4 * words ≤ length out.old) × ((w : ℕ) → w < 32 * words → entry assignment.now w < 2) }
    ensures { Written 0 (bytes_of_bits (4 * words) (entry assignment.now)) out.old out.new }
{
    for j in (0..words).rev() {
        let x = number_from(assignment, WireNumber(32 * j as u64));
        put_word(out, 4 * j, x as u32);
    }
}

// All wires of an assignment, which are bits: the words, and the last wire in the highest bit of a byte of its own.
fn put_packed(assignment: &[u8], wires: u64, out: &mut [u8])
    requires { (wires % 32 ≡ 1) × (8 * wires ≤ length assignment.now) × (packed_length wires ≤ length out.old) × ((w : ℕ) → w < wires → entry assignment.now w < 2) }
    ensures { Written 0 (packed_bytes wires (entry assignment.now)) out.old out.new }
{
    let words = (wires / 32) as usize;
    put_words(assignment, words, out);
    let last = read(assignment, WireNumber(wires - 1));
    out[4 * words] = (128 * last) as u8;
}

// An assignment for records of so many bits, packed into the front of `out`.
pub fn pack(limit: u64, bits: u64, assignment: &[u8], out: &mut [u8]) -> Result<(), Refusal>
    ensures value { result ≡ pack_answer limit bits assignment.now (length out.old) }
    ensures out_after { out.new ≡ pack_left result bits assignment.now out.old }
{
    ask_length(limit, bits)?;
    let wires = wire_count(Circuit::Record { bits });
    let room = packed_length(wires);
    let bytes = 8 * wires;
    if (out.len() as u64) < room {
        return Err(Refusal::BufferTooShort);
    }
    if assignment.len() as u64 != bytes {
        return Err(Refusal::WrongLength);
    }
    entries_asked(assignment, wires)?;
    put_packed(assignment, wires, out);
    Ok(())
}
