// A record as it is handed over: so many bits, packed into whole bytes.
ghost use Rattle.std.specs.Prelude.{◌≡◌, ◌≤◌, IfOk};
ghost use Rattle.limits.specs.Blocks.{most_bits};
ghost use Rattle.limits.specs.Handed.{handed_answer, outcome_of, record_bytes_answer};
ghost use Rattle.refusal.specs.Refusals.{done};

use crate::limit::{ask_blocks, decide};
use crate::record::Record;
use encoding::packed::{packed_length, spare_bits};
use refusal::outcome::Refusal;

// Refusal 13 or 14 of the bytes of a record of so many bits, or none.
fn ask_bytes(bits: u64, bytes: &[u8]) -> Result<(), Refusal>
    requires { bits ≤ most_bits }
    ensures { result ≡ record_bytes_answer bits bytes.now done }
{
    if bytes.len() as u64 != packed_length(bits) {
        return Err(Refusal::WrongRecordLength);
    }
    if spare_bits(bits, bytes) != 0 {
        return Err(Refusal::BitAfterRecord);
    }
    Ok(())
}

// Refusal 21, 2, 13, 14 or 22 of a record of so many bits, or the record.
#[tactic(auto, using(crate::proofs::limit::Decided::in_range, crate::proofs::handed::Asked::bytes_refused, crate::proofs::handed::Asked::bytes_passed, crate::proofs::handed::Asked::bytes_size), unfolding(crate::specs::Handed::handed_answer))]
pub fn ask_record<'a>(limit: u64, bits: u64, bytes: &'a [u8]) -> Result<Record<'a>, Refusal>
    ensures answer { outcome_of result ≡ handed_answer limit bits bytes.now done }
    ensures given { IfOk result (λ r. (r.bits ≡ bits) × (r.bytes.now ≡ bytes.now)) }
{
    let allowance = decide(limit, bits)?;
    ask_bytes(bits, bytes)?;
    ask_blocks(allowance)?;
    Ok(Record { bits, bytes })
}
