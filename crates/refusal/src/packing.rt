// An answer as one 64-bit number, for a C host: the refusal's number in the low byte, and its values above.
ghost use Rattle.std.specs.Prelude.{◌≡◌, ◌<◌, ◌^◌};
ghost use Rattle.refusal.specs.Packing.{above, packed, packed_outcome};
ghost use Rattle.refusal.specs.Refusals.{outcome_values, refusal_number, refusal_values};

use crate::outcome::Refusal;

// A refusal and its value, which has room above the low byte.
pub fn pack_refusal(refusal: Refusal) -> u64
    requires { above (refusal_values refusal) < 2 ^ 56 }
    ensures { result ≡ packed (refusal_number refusal) (refusal_values refusal) }
{
    refusal.number() + 256 * refusal.value()
}

// The answer of an operation that hands nothing back.
pub fn pack_outcome(outcome: Result<(), Refusal>) -> u64
    requires { above (outcome_values outcome) < 2 ^ 56 }
    ensures { result ≡ packed_outcome outcome }
{
    match outcome {
        Ok(()) => 0,
        Err(refusal) => pack_refusal(refusal),
    }
}
