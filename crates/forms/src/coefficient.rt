// A coefficient as a signed number.
ghost use Rattle.std.specs.Prelude.{◌≡◌, ◌<◌};
ghost use Rattle.field.specs.Field.{p};
ghost use Rattle.forms.specs.Coefficients.{signed};

use field::P;

// The highest number that is given as it is: (p - 1) / 2.
const HALF: u64 = 1152921504606846975;

// The coefficient whose residue is k: above (p - 1) / 2 it is given minus p.
#[tactic(auto, using(crate::proofs::coefficient::Signs::signed_low, crate::proofs::coefficient::Signs::signed_high))]
pub fn coefficient_of(k: u64) -> i64
    requires { k < p }
    ensures { result ≡ signed k }
{
    if k <= HALF {
        return k as i64;
    }
    -((P - k) as i64)
}
