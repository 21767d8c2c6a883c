// The whole assignment of a record, into a lent buffer.
ghost use Rattle.std.specs.Prelude.{List, ◌≡◌, ℕ, ◌+◌, ◌*◌, ◌≤◌, length};
ghost use Rattle.assignment.specs.Wrote.{Wrote};
ghost use Rattle.circuit.specs.Wires.{first_block, frame_wires, wire_count};
ghost use Rattle.circuit.specs.declared.circuits.Circuit.TheVariants as circuits;
ghost use Rattle.encoding.specs.Bits.{bit_of_bytes};
ghost use Rattle.encoding.specs.Packed.{packed_length};
ghost use Rattle.limits.specs.Blocks.{most_bits};
ghost use Rattle.record.specs.Layout.{wire_of};
ghost use Rattle.record.specs.Produce.{produce_answer, produce_left};

use assignment::message_wires::put_message;
use assignment::wires::{put_entry, put_state};
use circuit::circuits::Circuit;
use circuit::frame::{DIGEST, FIRST_BLOCK, START};
use circuit::wire::wire_count;
use limits::handed::ask_record;
use limits::record::Record;
use refusal::numbers::WireNumber;
use refusal::outcome::Refusal;
use sm3::constants::start_state;
use sm3::state::State;

// What stands before the blocks: the start words, the digest and wire 0. The digest comes from the blocks, so they are written by then.
pub fn put_frame(out: &mut [u8], digest: State)
    requires { 8 * first_block ≤ length out.old }
    ensures { (before : List ℕ) (n : ℕ) (rest : ℕ → ℕ) → Wrote first_block n rest before out.old → Wrote 0 (first_block + n) (frame_wires digest rest) before out.new }
{
    put_state(out, WireNumber(START), start_state());
    put_state(out, WireNumber(DIGEST), digest);
    put_entry(out, WireNumber(0), 1);
}

// All wires of a record.
pub fn put_assignment(out: &mut [u8], handed: Record<'_>)
    requires { 8 * wire_count (circuits.Record handed.bits) ≤ length out.old }
    ensures { Wrote 0 (wire_count (circuits.Record handed.entry.bits)) (wire_of handed.entry.bits (bit_of_bytes handed.entry.bytes.now)) out.old out.new }
{
    let digest = put_message(out, WireNumber(FIRST_BLOCK), handed);
    put_frame(out, digest);
}

// The assignment of a record of so many bits, and of no more blocks than the limit, into the first bytes of `out`.
#[tactic(auto, using(limits::proofs::handed::Asked::handed_stands, limits::proofs::handed::Asked::handed_passed, limits::proofs::handed::Asked::handed_range))]
pub fn produce(limit: u64, bits: u64, bytes: &[u8], out: &mut [u8]) -> Result<(), Refusal>
    ensures value { result ≡ produce_answer limit bits bytes.now (length out.old) }
    ensures out_after { out.new ≡ produce_left result bits bytes.now out.old }
{
    let handed = ask_record(limit, bits, bytes)?;
    let wires = wire_count(Circuit::Record { bits });
    if (out.len() as u64) < 8 * wires {
        return Err(Refusal::BufferTooShort);
    }
    put_assignment(out, handed);
    Ok(())
}
