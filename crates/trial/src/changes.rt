// An assignment that is accepted, with one thing changed at a time, and the check after each change.
ghost use Rattle.std.specs.Prelude.{◌≡◌, ◌+◌, ◌*◌, ◌<◌, ◌≤◌, length};
ghost use Rattle.block.specs.Wires.{wires_per_block};
ghost use Rattle.circuit.specs.Wires.{first_block, wire_count};
ghost use Rattle.circuit.specs.declared.circuits.Circuit.TheVariants.{Record};
ghost use Rattle.limits.specs.Blocks.{most_bits};

use crate::line::show;
use assignment::entry::read;
use assignment::wires::put_entry;
use block::wire::{BLOCK_WIRES, ROUND_WIDTH, ROUNDS, TT2};
use circuit::frame::{DIGEST, START, block_first};
use field::P;
use limits::blocks::{MOST_BITS, block_count};
use limits::limit::OUR_LIMIT;
use record::check::check;
use refusal::numbers::WireNumber;

// What assignments are held against: a record's length in bits and a digest.
#[derive(Clone, Copy)]
pub struct Claim<'a> {
    pub rt: &'a HostRuntime,
    pub bits: u64,
    pub digest: [u8; 32],
    ghost in_range: { bits ≤ most_bits },
}

impl Claim<'_> {
    // The check of an assignment, by what was done to it.
    fn show(&self, what: &str, assignment: &[u8]) {
        show(
            self.rt,
            self.bits,
            what,
            check(OUR_LIMIT, self.bits, &self.digest, assignment),
        );
    }

    // The check of an assignment with the entry of wire w set to v. The entry is then as it was.
    fn disturb(&self, what: &str, assignment: &mut [u8], w: WireNumber, v: u64)
        requires { 8 * (w.0 + 1) ≤ length assignment.old }
    {
        let held = read(assignment, w);
        put_entry(assignment, w, v);
        self.show(what, assignment);
        put_entry(assignment, w, held);
    }

    // The same with the entry of wire w changed from 0 to 1, or from 1 to 0.
    fn change(&self, what: &str, assignment: &mut [u8], w: WireNumber)
        requires { 8 * (w.0 + 1) ≤ length assignment.old }
    {
        let v = 1 - read(assignment, w) % 2;
        self.disturb(what, assignment, w, v);
    }

    // The wire of bit k of the record's message: a bit of the record, or the first of its padding.
    #[tactic(auto, unfolding(circuit::specs::Wires::wire_count, limits::specs::Blocks::blocks))]
    fn message_wire(&self, k: u64) -> WireNumber
        requires { k ≤ self.now.bits }
        ensures { result.0 < wire_count (Record self.now.bits) }
    {
        let first = block_first(k / 512);
        WireNumber(first.0 + k % 512)
    }

    // The first wire of the record's last block.
    #[tactic(auto, unfolding(circuit::specs::Wires::wire_count, limits::specs::Blocks::blocks))]
    fn last_block(&self) -> WireNumber
        ensures { result.0 + wires_per_block ≡ wire_count (Record self.now.bits) }
    {
        block_first(block_count(self.bits) - 1)
    }

    // Wires before the blocks: wire 0, the first of the digest and the first of the start words.
    fn change_frame(&self, assignment: &mut [u8])
        requires { 8 * first_block ≤ length assignment.old }
    {
        self.change("one", assignment, WireNumber(0));
        self.change("digest", assignment, WireNumber(DIGEST));
        self.change("start", assignment, WireNumber(START));
    }

    // Wires of the message: the padding's first bit, and the record's last where it has one.
    fn change_message(&self, assignment: &mut [u8])
        requires { length assignment.old ≡ 8 * wire_count (Record self.now.bits) }
    {
        let padding = self.message_wire(self.bits);
        self.change("padding", assignment, padding);
        if self.bits == 0 {
            return;
        }
        let record = self.message_wire(self.bits - 1);
        self.change("record", assignment, record);
    }

    // Wires of the last block: a carry of its last round, which is changed, and then becomes 2, the greatest number below the prime,
    // the prime, and the greatest number that an entry has room for; and the last wire of its result.
    fn change_last_block(&self, assignment: &mut [u8])
        requires { length assignment.old ≡ 8 * wire_count (Record self.now.bits) }
    {
        let last = self.last_block();
        let carry = WireNumber(last.0 + ROUNDS + ROUND_WIDTH * 63 + TT2 + 33);
        self.change("carry", assignment, carry);
        self.disturb("two", assignment, carry, 2);
        self.disturb("below", assignment, carry, P - 1);
        self.disturb("prime", assignment, carry, P);
        self.disturb("largest", assignment, carry, u64::MAX);
        let result = WireNumber(last.0 + BLOCK_WIRES - 1);
        self.change("result", assignment, result);
    }

    // Another digest held against the assignment, as it is and with the digest's first wire changed too.
    fn change_digest(&self, assignment: &mut [u8])
        requires { 8 * first_block ≤ length assignment.old }
    {
        let mut digest = self.digest;
        digest[0] ^= 128;
        let other = Claim {
            rt: self.rt,
            bits: self.bits,
            digest,
        };
        other.show("other", assignment);
        other.change("both", assignment, WireNumber(DIGEST));
    }

    // A length that is too long, and a digest and an assignment that lack a byte.
    fn change_lengths(&self, assignment: &[u8])
        requires { 1 ≤ length assignment.now }
    {
        let digest = &self.digest;
        let long = check(OUR_LIMIT, MOST_BITS + 1, digest, assignment);
        show(self.rt, self.bits, "length", long);
        let digest31 = check(OUR_LIMIT, self.bits, &digest[..31], assignment);
        show(self.rt, self.bits, "digest31", digest31);
        self.show("short", &assignment[..assignment.len() - 1]);
    }

    // Every change to an assignment that is accepted, and the check after each.
    pub fn change_all(&self, assignment: &mut [u8])
        requires { (length assignment.old ≡ 8 * wire_count (Record self.now.bits)) × (8 * first_block ≤ length assignment.old) }
    {
        self.change_frame(assignment);
        self.change_message(assignment);
        self.change_last_block(assignment);
        self.change_digest(assignment);
        self.change_lengths(assignment);
        add_p(assignment);
        self.show("plus_p", assignment);
    }
}

// p added to every entry, of which each is 0 or 1.
fn add_p(assignment: &mut [u8]) {
    let n = assignment.len() as u64 / 8;
    for w in 0..n {
        let v = P + read(assignment, WireNumber(w)) % 2;
        put_entry(assignment, WireNumber(w), v);
    }
}
