// A caller's limit in blocks, and what it says of a record's length.
ghost use Rattle.refusal.specs.Refusals.{done};
ghost use Rattle.std.specs.Prelude.{◌≡◌};
ghost use Rattle.limits.specs.Limit.{allowance, blocks_answer, length_answer};

use crate::blocks::{MOST_BITS, block_count};
use refusal::outcome::Refusal;

// The most blocks of any record, and the limit of our own calls.
pub const OUR_LIMIT: u64 = 16;

// The limit of a partner road, and of the passage and axle calls.
pub const PARTNER_LIMIT: u64 = 2;

// What a limit says of a length in range.
#[derive(Clone, Copy, Debug, PartialEq, Eq)]
pub enum Allowance {
    // The length needs no more blocks than the limit.
    Within,
    // It needs more: refusal 22, once the record's bytes are asked for.
    Beyond,
}

// What a limit of so many blocks says of a record of so many bits, or refusal 21 or 2. Every operation on a record asks this function.
#[tactic(auto, unfolding(crate::specs::Limit::allowance))]
pub fn decide(limit: u64, bits: u64) -> Result<Allowance, Refusal>
    ensures { result ≡ allowance limit bits }
{
    if limit < 1 {
        return Err(Refusal::LimitOutOfRange);
    }
    if OUR_LIMIT < limit {
        return Err(Refusal::LimitOutOfRange);
    }
    if MOST_BITS < bits {
        return Err(Refusal::LengthOutOfRange);
    }
    if limit < block_count(bits) {
        return Ok(Allowance::Beyond);
    }
    Ok(Allowance::Within)
}

// Refusal 22 of a length that needs more blocks than the limit.
pub fn ask_blocks(allowance: Allowance) -> Result<(), Refusal>
    ensures { result ≡ blocks_answer allowance }
{
    match allowance {
        Allowance::Within => Ok(()),
        Allowance::Beyond => Err(Refusal::BlocksAboveLimit),
    }
}

// Refusal 21, 2 or 22 of a record's length without its bytes, or none.
#[tactic(auto, unfolding(crate::specs::Limit::length_answer))]
pub fn ask_length(limit: u64, bits: u64) -> Result<(), Refusal>
    ensures { result ≡ length_answer limit bits done }
{
    ask_blocks(decide(limit, bits)?)
}
