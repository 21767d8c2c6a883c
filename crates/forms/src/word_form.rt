// The forms of the rows that make a word: line l of the rows whose result stands at r.
ghost use Rattle.std.specs.Prelude.{◌≡◌, ℕ, ◌<◌};
ghost use Rattle.forms.specs.Bounds.{Small, Within};
ghost use Rattle.forms.specs.Positions.{rotated_by, standing};
ghost use Rattle.forms.specs.Terms.{Fit, FitDifference};
ghost use Rattle.forms.specs.WordForms.{choice_of, of_three, paired, summed, xor_of_two};
ghost use Rattle.forms.specs.WordForms as words;
ghost use Rattle.forms.specs.declared.form.Addends.{Addends};
ghost use Rattle.forms.specs.declared.form.Form.TheVariants.{XorOfThree};

use crate::form::{Bound, Digits, Form};
use crate::position::{WordPosition, rotated, wire_of_bit, word_from};
use refusal::numbers::WireNumber;

// r is x xor y.
#[tactic(auto, unfolding(crate::specs::WordForms::xor_of_two))]
pub fn xor_of_two(x: WordPosition, y: WordPosition, r: WordPosition, l: u64) -> Form
    requires { Within x × Within y × Within r × (l < 32) }
    ensures { (result ≡ xor_of_two x y r l) × Fit result }
{
    Form::XorOfTwo {
        x: wire_of_bit(x, l),
        y: wire_of_bit(y, l),
        r: wire_of_bit(r, l),
    }
}

// r is y where x is 1, else z.
#[tactic(auto, unfolding(crate::specs::WordForms::choice_of))]
pub fn choice(x: WordPosition, y: WordPosition, z: WordPosition, r: WordPosition, l: u64) -> Form
    requires { Within x × Within y × Within z × Within r × (l < 32) }
    ensures { (result ≡ choice_of x y z r l) × Fit result }
{
    Form::Choice {
        x: wire_of_bit(x, l),
        y: wire_of_bit(y, l),
        z: wire_of_bit(z, l),
        r: wire_of_bit(r, l),
    }
}

// What a word is made of three others by, bit by bit.
#[derive(Clone, Copy, Debug, PartialEq, Eq)]
pub enum OfThree {
    Xor,
    Majority,
}

// r is the xor of x, y and z, or their majority. Each position has the bit row of r and then the equation.
#[tactic(auto, unfolding(crate::specs::WordForms::paired))]
pub fn pair(
    of: OfThree,
    x: WordPosition,
    y: WordPosition,
    z: WordPosition,
    r: WordPosition,
    l: u64,
) -> Form
    requires { Within x × Within y × Within z × Within r × (l < 64) }
    ensures { (result ≡ paired (of_three of) x y z r l) × Fit result }
{
    let i = l / 2;
    let r = wire_of_bit(r, i);
    if l % 2 == 0 {
        return Form::Bit { w: r };
    }
    let x = wire_of_bit(x, i);
    let y = wire_of_bit(y, i);
    let z = wire_of_bit(z, i);
    match of {
        OfThree::Xor => Form::XorOfThree { x, y, z, r },
        OfThree::Majority => Form::Majority { x, y, z, r },
    }
}

// A bit row of the sum whose wires begin at r. It is the same whatever is added up.
#[tactic(auto, unfolding(crate::specs::WordForms::summed))]
pub fn sum_bit(r: WireNumber, l: u64) -> Form
    requires { Small r.0 × (l < 34) }
    ensures { ((s : Addends) (constant : ℕ) → result ≡ summed s constant r.0 l) × Fit result }
{
    Form::Bit {
        w: WireNumber(r.0 + l),
    }
}

// The word from `to` on is X xor X<<<near xor X<<<far, of the word X from `from` on.
pub fn permuted(from: WireNumber, near: u64, far: u64, to: WireNumber, l: u64) -> Form
    requires { Small from.0 × (near < 32) × (far < 32) × Small to.0 × (l < 64) }
    ensures { (result ≡ paired XorOfThree (standing from.0) (rotated_by near (standing from.0)) (rotated_by far (standing from.0)) (standing to.0) l) × Fit result }
{
    let x = word_from(from);
    let y = rotated(near, x);
    let z = rotated(far, x);
    let r = word_from(to);
    pair(OfThree::Xor, x, y, z, r, l)
}

// The bits from r on are what lies between the digits and their bound.
#[tactic(auto, unfolding(crate::specs::WordForms::subtracted))]
pub fn subtracted(digits: Digits, bound: Bound, width: u64, r: WireNumber, l: u64) -> Form
    requires { FitDifference digits bound width r × Small l }
    ensures { (result ≡ words.subtracted digits bound width r.0 l) × Fit result }
{
    if l < width {
        return Form::Bit {
            w: WireNumber(r.0 + l),
        };
    }
    Form::Difference {
        digits,
        bound,
        width,
        r,
    }
}
