// Rows judged by their forms: all but those of sums and differences.
ghost use Rattle.std.specs.Prelude.{true, ◌≡◌, ◌+◌, ◌-◌, ◌*◌, ◌<◌, length};
ghost use Rattle.assignment.specs.Assignment.{entry};
ghost use Rattle.assignment.specs.Bounded.{BelowPrime};
ghost use Rattle.forms.specs.Rows.{Satisfied, row_of};
ghost use Rattle.forms.specs.Terms.{Fit};
ghost use Rattle.runs.specs.Reached.{Reached};

use assignment::entry::read;
use forms::form::Form;

// Whether r is y where x is 1 and z where it is 0, and all three are bits.
fn is_chosen(x: u64, y: u64, z: u64, r: u64) -> bool
    ensures { result ≡ true → (x < 2) × (y < 2) × (z < 2) × (r ≡ x * y + (1 - x) * z) }
{
    if 1 < y || 1 < z {
        return false;
    }
    match x {
        0 => r == z,
        1 => r == y,
        _ => false,
    }
}

// Whether x, y and z are bits, and r is what a rule makes of their sum.
fn is_ruled<F: Fn(u64) -> u64>(x: u64, y: u64, z: u64, r: u64, rule: F) -> bool
    requires { F.IsAlwaysCallable rule }
    ensures { result ≡ true → (x < 2) × (y < 2) × (z < 2) × F.post rule (x + y + z) r }
{
    if 1 < x || 1 < y || 1 < z {
        return false;
    }
    rule(x + y + z) == r
}

// Whether a row is satisfied, told by its form. Of sums and differences it does not say so.
#[tactic(auto, using(crate::proofs::FormRows::fixed_holds, crate::proofs::FormRows::bit_holds, crate::proofs::FormRows::equal_holds, crate::proofs::FormRows::xor_of_two_holds, crate::proofs::FormRows::xor_of_three_holds, crate::proofs::FormRows::majority_holds, crate::proofs::FormRows::choice_holds))]
pub fn form_holds(assignment: &[u8], form: Form) -> bool
    requires { (entry assignment.now 0 ≡ 1) × BelowPrime assignment.now × Reached (length assignment.now) form × Fit form }
    ensures { result ≡ true → Satisfied (entry assignment.now) (row_of form) }
{
    let a = assignment;
    match form {
        Form::Fixed { w, bit } => read(a, w) == bit,
        Form::Bit { w } => read(a, w) < 2,
        Form::XorOfTwo { x, y, r } => {
            is_ruled(read(a, x), read(a, y), 0, read(a, r), |sum| sum % 2)
        }
        Form::XorOfThree { x, y, z, r } => {
            is_ruled(
                read(a, x),
                read(a, y),
                read(a, z),
                read(a, r),
                |sum| sum % 2,
            )
        }
        Form::Majority { x, y, z, r } => {
            is_ruled(
                read(a, x),
                read(a, y),
                read(a, z),
                read(a, r),
                |sum| sum / 2,
            )
        }
        Form::Choice { x, y, z, r } => { is_chosen(read(a, x), read(a, y), read(a, z), read(a, r)) }
        Form::Equal { x, y } => read(a, x) == read(a, y),
        Form::Sum { .. } | Form::Difference { .. } => false,
    }
}
