// Produces the assignments of records of 0, 55, 56, 64 and 1,015 bytes and of 8,127 bits whose byte k is k mod 251, checks them,
// changes one thing at a time and checks again, held against the file `stdout`.
//
// Each check is a line: the record's length in bits, what was done, the refusal's number or 0 for none, with refusal 9 the row and
// with refusal 20 the wire.
// What was done, each time to the assignment as it was produced, where "changed" turns an entry 0 into 1 and 1 into 0:
//     produced    nothing
//     one         wire 0 is changed
//     digest      the first digest wire is changed
//     start       the first start wire is changed
//     padding     the wire of the message's first bit past the record, a 1, is changed
//     record      the wire of the record's last bit, where it has one, is changed
//     carry       the lower carry of TT2 in the last round of the last block is changed
//     two         the same carry becomes 2, which is no bit
//     below       the same carry becomes p - 1
//     prime       the same carry becomes p
//     largest     the same carry becomes 2^64 - 1
//     result      the last result wire of the last block is changed
//     other       the digest that is held against has another first bit
//     both        that digest's bit and the first digest wire are changed
//     length      the length 8,128 is named
//     digest31    a digest of 31 bytes is held against
//     short       the assignment's last byte is left out
//     plus_p      p is added to every entry
// A local array has the 2,887,688 bytes of the longest assignment: the program needs 3 megabytes of stack.
#![tactic(auto)]

ghost use Rattle.refusal.specs.Refusals.{done};
ghost use Rattle.std.specs.Prelude.{◌≡◌, ◌*◌, ◌≤◌, length};
ghost use Rattle.circuit.specs.Wires.{wire_count};
ghost use Rattle.circuit.specs.declared.circuits.Circuit.TheVariants.{Record};
ghost use Rattle.encoding.specs.Packed.{packed_length, spare_bits};
ghost use Rattle.limits.specs.Blocks.{most_bits};

mod changes;
mod line;

use crate::changes::Claim;
use crate::line::show;
use circuit::circuits::Circuit;
use circuit::wire::wire_count;
use encoding::packed::packed_length;
use limits::handed::ask_record;
use limits::limit::OUR_LIMIT;
use record::check::check;
use record::produce::produce;
use record::space::assignment_space;
use refusal::outcome::Refusal;
use sample::counted;
use sm3::digest::digest;

// The lengths of the records in bits.
const LENGTHS: [u64; 6] = [0, 440, 448, 512, 8120, 8127];

// The digest of a record of so many bits and its assignment, and the check of the one against the other.
fn produce_and_check(bits: u64, bytes: &[u8], sum: &mut [u8], out: &mut [u8]) -> Result<(), Refusal>
    requires { (bits ≤ most_bits) × (length bytes.now ≡ packed_length bits) × (spare_bits bits bytes.now ≡ 0) × (length sum.old ≡ 32) × (8 * wire_count (Record bits) ≤ length out.old) }
    ensures { result ≡ done }
{
    digest(OUR_LIMIT, bits, bytes, sum)?;
    produce(OUR_LIMIT, bits, bytes, out)?;
    let end = (8 * wire_count(Circuit::Record { bits })) as usize;
    check(OUR_LIMIT, bits, sum, &out[..end])
}

// A record's assignment is produced, checked, and changed.
#[tactic(auto, using(crate::proofs::Front::front_length), unfolding(circuit::specs::Wires::wire_count, limits::specs::Blocks::blocks))]
fn try_record(rt: &HostRuntime, bits: u64, bytes: &[u8], room: &mut [u8])
    requires { (bits ≤ most_bits) × (length bytes.now ≡ packed_length bits) × (spare_bits bits bytes.now ≡ 0) × (length room.old ≡ 2887688) }
{
    let mut digest = [0u8; 32];
    let produced = produce_and_check(bits, bytes, &mut digest, room);
    show(rt, bits, "produced", produced);
    let end = (8 * wire_count(Circuit::Record { bits })) as usize;
    let claim = Claim { rt, bits, digest };
    claim.change_all(&mut room[..end]);
}

// The same for a record as it is handed over; none is refused here.
fn try_handed(rt: &HostRuntime, bits: u64, bytes: &[u8], room: &mut [u8])
    requires { length room.old ≡ 2887688 }
{
    match ask_record(OUR_LIMIT, bits, bytes) {
        Ok(_) => try_record(rt, bits, bytes, room),
        Err(refusal) => show(rt, bits, "handed", Err(refusal)),
    }
}

// The same for the record of so many bits whose byte k is k mod 251.
fn try_length(rt: &HostRuntime, bits: u64, room: &mut [u8])
    requires { (bits ≤ most_bits) × (length room.old ≡ 2887688) }
{
    let bytes = counted(bits);
    let end = packed_length(bits) as usize;
    try_handed(rt, bits, &bytes[..end], room);
}

fn main(rt: HostRuntime) {
    let mut room = assignment_space();
    for bits in LENGTHS {
        try_length(&rt, bits, &mut room);
    }
}
