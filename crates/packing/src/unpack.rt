// Packed bytes as an assignment of 8-byte entries.
ghost use Rattle.std.specs.Prelude.{◌≡◌, ◌*◌, ◌≤◌, length};
ghost use Rattle.assignment.specs.Wrote.{Wrote};
ghost use Rattle.encoding.specs.Bits.{bit_of_bytes};
ghost use Rattle.packing.specs.Unpack.{unpack_answer, unpack_left};

use assignment::wires::{put_entry, put_word};
use circuit::circuits::Circuit;
use circuit::wire::wire_count;
use encoding::packed::{packed_length, spare_bits};
use encoding::read::{bit_at, word_at};
use limits::limit::ask_length;
use refusal::numbers::WireNumber;
use refusal::outcome::Refusal;

// The first entries of packed bytes: in each turn a word of their first half and one of the second, since two places of memory
// are written sooner than one.
fn put_entries(packed: &[u8], half: usize, out: &mut [u8])
    requires { (8 * half ≤ length packed.now) × (512 * half ≤ length out.old) }
    ensures { Wrote 0 (64 * half) (bit_of_bytes packed.now) out.old out.new }
{
    for j in 0..half {
        let x = word_at(packed, 4 * j);
        put_word(out, WireNumber(32 * j as u64), x);
        let y = word_at(packed, 4 * (half + j));
        put_word(out, WireNumber(32 * (half + j) as u64), y);
    }
}

// The entries of packed bytes for records of so many bits, into the front of `out`.
pub fn unpack(limit: u64, bits: u64, packed: &[u8], out: &mut [u8]) -> Result<(), Refusal>
    ensures value { result ≡ unpack_answer limit bits packed.now (length out.old) }
    ensures out_after { out.new ≡ unpack_left result bits packed.now out.old }
{
    ask_length(limit, bits)?;
    let wires = wire_count(Circuit::Record { bits });
    if (out.len() as u64) < 8 * wires {
        return Err(Refusal::BufferTooShort);
    }
    if packed.len() as u64 != packed_length(wires) {
        return Err(Refusal::WrongPackedLength);
    }
    if spare_bits(wires, packed) != 0 {
        return Err(Refusal::SpareBit);
    }
    put_entries(packed, (wires / 64) as usize, out);
    put_entry(out, WireNumber(wires - 1), bit_at(packed, wires - 1));
    Ok(())
}
