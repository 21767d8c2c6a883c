// Compares what the operations give with figures from outside, held against the file `stdout`: a line of hexadecimal
// digits for each digest, then document 01's rows that are not proved.
//
// The first two lines are the standard's own examples: "abc", and "abcd" 16 times. The others are records whose byte k is k mod
// 251 (the crate `sample`). Of 0, 55, 56, 63, 64, 119, 120 and 1,015 bytes, lengths in bits 0 to 8,120, the digests are
// OpenSSL 3.0's:
//     python3 -c 'import sys; sys.stdout.buffer.write(bytes(k % 251 for k in range(L)))' | openssl dgst -sm3
// OpenSSL hashes whole bytes. Of 1, 5, 447, 449, 505, 511, 959, 961 and 8,127 bits the digests are the judge's (tests/judge), an
// SM3 of bit strings that is written from the standard; the bits after the last are 0 in their byte:
//     python3 -c 'import sys; n = BITS; b = bytearray(k % 251 for k in range((n + 7) // 8)); b[-1] &= 255 << -n % 8 & 255;
//         sys.stdout.buffer.write(b)' | judge digest BITS
//
// The rows are document 01's, each a line: the refusal's number, 0 for none, the counts of A, B and C, and three terms,
// each a wire and a coefficient. Row 256 fixes wire 513 to 1 at 0 bits; at 1 byte, and at 1 bit too, it is a bit row, with p - 1
// on wire 0 in B; at 1 bit row 257 fixes wire 514 to 1; row 32,576 at 0 bits has wires 1 (1) and 22,785 (p - 1) in A; row 32,832
// at 0 bits is refusal 3. Document 02's request 7 gives p - 1 as -1.
#![tactic(auto)]

ghost use Rattle.std.specs.Prelude.{◌+◌, ◌≤◌};
ghost use Rattle.circuit.specs.GivenRow.{row_bytes};
ghost use Rattle.limits.specs.Blocks.{most_bits};

use circuit::given_row::ROW_BYTES;
use console::put;
use encoding::packed::packed_length;
use encoding::read::{eight_bytes, four_bytes};
use forms::terms::Counts;
use limits::limit::OUR_LIMIT;
use record::row::row;
use refusal::numbers::RowNumber;
use sample::counted;
use sm3::digest::digest;
use std::fmt::{self, Display, Formatter};

// The lengths in bits of the records whose byte k is k mod 251: those that OpenSSL hashes, and then the others.
const LENGTHS: [u64; 17] = [
    0, 440, 448, 504, 512, 952, 960, 8120, 1, 5, 447, 449, 505, 511, 959, 961, 8127,
];

// The rows, each the length of its record in bits and its number.
const ROWS: [(u64, u64); 6] = [
    (0, 256),
    (8, 256),
    (1, 256),
    (1, 257),
    (0, 32576),
    (0, 32832),
];

// A digest as 64 hexadecimal digits and a line feed.
#[derive(Clone, Copy)]
struct DigestLine([u8; 32]);

impl Display for DigestLine {
    fn fmt<W: fmt::Write>(&self, f: &mut Formatter<W>) -> fmt::Result {
        for byte in self.0 {
            write!(f, "{byte:02x}")?;
        }
        writeln!(f)
    }
}

// The digest of a record of so many bits, printed. No record here is refused.
fn show(rt: &HostRuntime, bits: u64, bytes: &[u8]) {
    let mut out = [0u8; 32];
    let _ = digest(OUR_LIMIT, bits, bytes, &mut out);
    put(rt, DigestLine(out));
}

// The record of so many bits whose byte k is k mod 251.
fn show_counted(rt: &HostRuntime, bits: u64)
    requires { bits ≤ most_bits }
{
    let bytes = counted(bits);
    let end = packed_length(bits) as usize;
    show(rt, bits, &bytes[..end]);
}

// A number in decimal, and a blank.
fn print_number(rt: &HostRuntime, x: u64) {
    put(rt, x);
    put(rt, " ");
}

// A signed number in decimal, and a blank.
fn print_signed(rt: &HostRuntime, x: i64) {
    if x < 0 {
        put(rt, "-");
    }
    print_number(rt, x.unsigned_abs());
}

// The wire and the coefficient, which is signed, of the term in twelve bytes from `at` on.
fn print_term(rt: &HostRuntime, bytes: &[u8; ROW_BYTES], at: usize)
    requires { at + 12 ≤ row_bytes }
{
    print_number(rt, four_bytes(bytes, at));
    print_signed(rt, eight_bytes(bytes, at + 4).cast_signed());
}

// The counts of a row and its first three terms.
fn print_row(rt: &HostRuntime, n: Counts, bytes: &[u8; ROW_BYTES]) {
    for count in [0, n.a, n.b, n.c] {
        print_number(rt, count as u64);
    }
    for i in 0..3 {
        print_term(rt, bytes, 12 * i);
    }
}

// The row of a number for a record of so many bits: the refusal's number, or 0, the counts and three terms.
fn show_row(rt: &HostRuntime, bits: u64, number: u64) {
    let mut out = [0u8; ROW_BYTES];
    match row(OUR_LIMIT, bits, RowNumber(number), &mut out) {
        Ok(n) => print_row(rt, n, &out),
        Err(refusal) => print_number(rt, refusal.number()),
    }
    put(rt, "\n");
}

fn main(rt: HostRuntime) {
    show(&rt, 24, b"abc");
    show(
        &rt,
        512,
        b"abcdabcdabcdabcdabcdabcdabcdabcdabcdabcdabcdabcdabcdabcdabcdabcd",
    );
    for bits in LENGTHS {
        show_counted(&rt, bits);
    }
    for (bits, number) in ROWS {
        show_row(&rt, bits, number);
    }
}
