// Arithmetic modulo p = 2^61 - 1.
#![tactic(auto)]

ghost use Rattle.std.specs.Prelude.{◌≡◌, ◌+◌, ◌*◌, ◌^◌, ◌%◌, ◌<◌};
ghost use Rattle.field.specs.Field.{p};

// The prime p = 2^61 - 1.
pub const P: u64 = 2305843009213693951;

// Where numbers are split: 2^61, which is 1 modulo p.
const TWO_61: u64 = 2305843009213693952;

// The residue of any 64-bit number. 8 p < 2^64, so one conditional subtraction alone would not do:
// the bits from 2^61 up are added to those below first.
fn reduce(x: u64) -> u64
    ensures { result ≡ x % p }
{
    let folded = x / TWO_61 + x % TWO_61;
    if folded < P { folded } else { folded - P }
}

// The sum of two residues.
pub fn sum(a: u64, b: u64) -> u64
    requires { (a < p) × (b < p) }
    ensures { result ≡ (a + b) % p }
{
    let s = a + b;
    if s < P { s } else { s - P }
}

// The product of two numbers below 2^62, so of two residues and of two sums of two residues: the bits of the whole product from 2^61
// up are added to those below.
#[tactic(auto, using(crate::proofs::Whole::below))]
pub fn product(a: u64, b: u64) -> u64
    requires { (a < 2 ^ 62) × (b < 2 ^ 62) }
    ensures { result ≡ (a * b) % p }
{
    let whole = u128::from(a) * u128::from(b);
    reduce((whole / TWO_61 as u128) as u64 + (whole % TWO_61 as u128) as u64)
}
