// The operations for a C host: each takes numbers and byte slices and answers one 64-bit number, whose low byte is
// the refusal's number and which has the values above it (docs/HOST.md). A caller's limit in blocks comes first.
#![tactic(auto)]

ghost use Rattle.std.specs.Prelude.{◌≡◌, length};
ghost use Rattle.axles.specs.Check.{axles_check_answer};
ghost use Rattle.axles.specs.Produce.{axles_produce_answer, axles_produce_left};
ghost use Rattle.axles.specs.RowAnswer.{axles_row_answer, axles_row_left};
ghost use Rattle.packing.specs.Pack.{pack_answer, pack_left};
ghost use Rattle.packing.specs.Unpack.{unpack_answer, unpack_left};
ghost use Rattle.record.specs.Check.{check_answer};
ghost use Rattle.record.specs.Produce.{produce_answer, produce_left};
ghost use Rattle.record.specs.RowAnswer.{row_answer, row_left};
ghost use Rattle.refusal.specs.Packing.{packed_outcome};
ghost use Rattle.sm3.specs.Digest.{digest_answer, digest_left};
ghost use Rattle.sm3rows.specs.Packing.{packed_row};
ghost use Rattle.sm3rows.specs.Small.{SmallRow};

use forms::terms::Counts;
use refusal::numbers::RowNumber;
use refusal::outcome::Refusal;
use refusal::packing::{pack_outcome, pack_refusal};

// The number of a row's answer.
fn pack_row(answer: Result<Counts, Refusal>) -> u64
    requires { SmallRow answer }
    ensures { result ≡ packed_row answer }
{
    match answer {
        Ok(n) => 256 * (n.a as u64 + 256 * (n.b as u64 + 256 * n.c as u64)),
        Err(refusal) => pack_refusal(refusal),
    }
}

// The digest of a record of so many bits, into the first 32 bytes of `out`.
#[unsafe(no_mangle)]
#[tactic(auto, using(crate::proofs::Small::digest_small))]
pub extern "C" fn sm3rows_digest(limit: u64, bits: u64, bytes: &[u8], out: &mut [u8]) -> u64
    ensures value { result ≡ packed_outcome (digest_answer limit bits bytes.now (length out.old)) }
    ensures out_after { out.new ≡ digest_left (digest_answer limit bits bytes.now (length out.old)) bits bytes.now out.old }
{
    pack_outcome(sm3::digest::digest(limit, bits, bytes, out))
}

// One row by its number, for a record of so many bits, into the front of `out`.
#[unsafe(no_mangle)]
#[tactic(auto, using(crate::proofs::Small::row_small))]
pub extern "C" fn sm3rows_row(limit: u64, bits: u64, row: u64, out: &mut [u8]) -> u64
    ensures value { result ≡ packed_row (row_answer limit bits row (length out.old)) }
    ensures out_after { out.new ≡ row_left (row_answer limit bits row (length out.old)) bits row out.old }
{
    pack_row(record::row::row(limit, bits, RowNumber(row), out))
}

// The whole assignment of a record of so many bits, into the front of `out`.
#[unsafe(no_mangle)]
#[tactic(auto, using(crate::proofs::Small::produce_small))]
pub extern "C" fn sm3rows_produce(limit: u64, bits: u64, bytes: &[u8], out: &mut [u8]) -> u64
    ensures value { result ≡ packed_outcome (produce_answer limit bits bytes.now (length out.old)) }
    ensures out_after { out.new ≡ produce_left (produce_answer limit bits bytes.now (length out.old)) bits bytes.now out.old }
{
    pack_outcome(record::produce::produce(limit, bits, bytes, out))
}

// The check of an assignment for a record of so many bits against a digest.
#[unsafe(no_mangle)]
#[tactic(auto, using(crate::proofs::Small::check_small))]
pub extern "C" fn sm3rows_check(limit: u64, bits: u64, digest: &[u8], assignment: &[u8]) -> u64
    ensures { result ≡ packed_outcome (check_answer limit bits digest.now assignment.now) }
{
    pack_outcome(record::check::check(limit, bits, digest, assignment))
}

// An assignment for records of so many bits, packed a bit a wire into the front of `out`.
#[unsafe(no_mangle)]
#[tactic(auto, using(crate::proofs::Small::pack_small))]
pub extern "C" fn sm3rows_pack(limit: u64, bits: u64, assignment: &[u8], out: &mut [u8]) -> u64
    ensures value { result ≡ packed_outcome (pack_answer limit bits assignment.now (length out.old)) }
    ensures out_after { out.new ≡ pack_left (pack_answer limit bits assignment.now (length out.old)) bits assignment.now out.old }
{
    pack_outcome(packing::pack::pack(limit, bits, assignment, out))
}

// Packed bytes for records of so many bits as 8-byte entries, into the front of `out`.
#[unsafe(no_mangle)]
#[tactic(auto, using(crate::proofs::Small::unpack_small))]
pub extern "C" fn sm3rows_unpack(limit: u64, bits: u64, packed: &[u8], out: &mut [u8]) -> u64
    ensures value { result ≡ packed_outcome (unpack_answer limit bits packed.now (length out.old)) }
    ensures out_after { out.new ≡ unpack_left (unpack_answer limit bits packed.now (length out.old)) bits packed.now out.old }
{
    pack_outcome(packing::unpack::unpack(limit, bits, packed, out))
}

// One row by its number, for axles between two bounds, into the front of `out`.
#[unsafe(no_mangle)]
#[tactic(auto, using(crate::proofs::Small::axles_row_small))]
pub extern "C" fn sm3rows_axles_row(lower: u64, upper: u64, row: u64, out: &mut [u8]) -> u64
    ensures value { result ≡ packed_row (axles_row_answer lower upper row (length out.old)) }
    ensures out_after { out.new ≡ axles_row_left (axles_row_answer lower upper row (length out.old)) lower upper row out.old }
{
    pack_row(axles::row::row(lower, upper, RowNumber(row), out))
}

// The whole assignment of a record with axles between two bounds, into the front of `out`.
#[unsafe(no_mangle)]
#[tactic(auto, using(crate::proofs::Small::axles_produce_small))]
pub extern "C" fn sm3rows_axles_produce(lower: u64, upper: u64, bytes: &[u8], out: &mut [u8]) -> u64
    ensures value { result ≡ packed_outcome (axles_produce_answer lower upper bytes.now (length out.old)) }
    ensures out_after { out.new ≡ axles_produce_left (axles_produce_answer lower upper bytes.now (length out.old)) lower upper bytes.now out.old }
{
    pack_outcome(axles::produce::produce(lower, upper, bytes, out))
}

// The check of an assignment for axles between two bounds against a digest.
#[unsafe(no_mangle)]
#[tactic(auto, using(crate::proofs::Small::axles_check_small))]
pub extern "C" fn sm3rows_axles_check(
    lower: u64,
    upper: u64,
    digest: &[u8],
    assignment: &[u8],
) -> u64
    ensures { result ≡ packed_outcome (axles_check_answer lower upper digest.now assignment.now) }
{
    pack_outcome(axles::check::check(lower, upper, digest, assignment))
}
