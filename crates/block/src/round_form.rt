// The rows of round j. Each form names words of its own; how a row joins them is said once, in `forms::word_form`.
ghost use Rattle.std.specs.Prelude.{◌≡◌, ◌^◌, ◌<◌};
ghost use Rattle.block.specs.Bounds.{BlockAt, stands_before};
ghost use Rattle.block.specs.StepForms.{ff_form, gg_form, p0_form, ss2_form, tt1_form, tt2_form, u_form};
ghost use Rattle.block.specs.Steps.{lines};
ghost use Rattle.block.specs.declared.step.Step.TheVariants.{Gg};
ghost use Rattle.forms.specs.Bounds.{Small};
ghost use Rattle.forms.specs.Terms.{Fit};
ghost use Rattle.forms.specs.WordForms.{summed};
ghost use Rattle.forms.specs.declared.form.Addends.{Addends};
ghost use Rattle.forms.specs.declared.form.Form.TheVariants.{Sum};

use crate::placed::Block;
use crate::wire;
use crate::wire::round_first;
use forms::form::{Addends, Form};
use forms::position::rotated;
use forms::word_form::{OfThree, choice, pair, permuted, sum_bit, xor_of_two};
use refusal::numbers::WireNumber;
use sm3::constants::rotated_constant;

// How many wires a sum has: its word and then 2 carries. Each has its bit row, and then comes the equation.
const SUM_WIRES: u64 = 34;

// Line l of a sum whose word stands from r on. Only the equation asks for the addends.
#[tactic(auto, unfolding(forms::specs::WordForms::summed))]
fn sum_form<F: FnOnce() -> Addends>(addends: F, constant: u64, r: WireNumber, l: u64) -> Form
    requires callable { F.IsAlwaysCallable addends }
    requires within { (s : Addends) → F.post addends s → Fit (Sum s constant r) }
    requires range { Small r.0 × (l < 35) }
    ensures value { (s : Addends) → ((t : Addends) → F.post addends t → t ≡ s) → result ≡ summed s constant r.0 l }
    ensures fits { Fit result }
{
    if l < SUM_WIRES {
        return sum_bit(r, l);
    }
    Form::Sum {
        addends: addends(),
        constant,
        r,
    }
}

// P0(TT2), of the block whose first wire is `first`.
#[tactic(auto, unfolding(crate::specs::StepForms::p0_form))]
pub fn p0_form(first: WireNumber, j: u64, l: u64) -> Form
    requires { BlockAt first.0 × (j < 64) × (l < 64) }
    ensures { (result ≡ p0_form first.0 j l) × Fit result }
{
    let u = round_first(first, j);
    permuted(
        WireNumber(u.0 + wire::TT2),
        9,
        17,
        WireNumber(u.0 + wire::P0),
        l,
    )
}

impl Block {
    // u = A<<<12 + E + T<<<(j mod 32)
    #[tactic(auto, unfolding(crate::specs::StepForms::u_form))]
    pub fn u_form(self, j: u64, l: u64) -> Form
        requires { (j < 64) × (l < 35) }
        ensures { (result ≡ u_form self.first.0 (stands_before self.first.0 self.begin.0 j) j l) × Fit result }
    {
        let r = self.round_first(j);
        let t = rotated_constant(j as usize);
        let addends = || Addends {
            x: rotated(12, self.word_before(0, j)),
            y: self.word_before(4, j),
            more: None,
        };
        sum_form(addends, t as u64, r, l)
    }

    // SS2 = SS1 xor A<<<12
    #[tactic(auto, unfolding(crate::specs::StepForms::ss2_form))]
    pub fn ss2_form(self, j: u64, l: u64) -> Form
        requires { (j < 64) × (l < 32) }
        ensures { (result ≡ ss2_form self.first.0 (stands_before self.first.0 self.begin.0 j) j l) × Fit result }
    {
        let x = self.ss1_word(j);
        let y = rotated(12, self.word_before(0, j));
        let r = self.round_word(j, wire::SS2);
        xor_of_two(x, y, r, l)
    }

    // FF of A, B and C
    #[tactic(auto, unfolding(crate::specs::StepForms::ff_form))]
    pub fn ff_form(self, j: u64, l: u64) -> Form
        requires { (j < 64) × (l < 64) }
        ensures { (result ≡ ff_form self.first.0 (stands_before self.first.0 self.begin.0 j) j l) × Fit result }
    {
        let x = self.word_before(0, j);
        let y = self.word_before(1, j);
        let z = self.word_before(2, j);
        let r = self.round_word(j, wire::FF);
        let of = if j < 16 {
            OfThree::Xor
        } else {
            OfThree::Majority
        };
        pair(of, x, y, z, r, l)
    }

    // GG of E, F and G
    #[tactic(auto, unfolding(crate::specs::StepForms::gg_form))]
    pub fn gg_form(self, j: u64, l: u64) -> Form
        requires { (j < 64) × (l < lines Gg j) }
        ensures { (result ≡ gg_form self.first.0 (stands_before self.first.0 self.begin.0 j) j l) × Fit result }
    {
        let x = self.word_before(4, j);
        let y = self.word_before(5, j);
        let z = self.word_before(6, j);
        let r = self.round_word(j, wire::GG);
        if j < 16 {
            return pair(OfThree::Xor, x, y, z, r, l);
        }
        choice(x, y, z, r, l)
    }

    // TT1 = FF + D + SS2 + W'j
    #[tactic(auto, unfolding(crate::specs::StepForms::tt1_form))]
    pub fn tt1_form(self, j: u64, l: u64) -> Form
        requires { (j < 64) × (l < 35) }
        ensures { (result ≡ tt1_form self.first.0 (stands_before self.first.0 self.begin.0 j) j l) × Fit result }
    {
        let u = self.round_first(j);
        let addends = || Addends {
            x: self.round_word(j, wire::FF),
            y: self.word_before(3, j),
            more: Some((self.round_word(j, wire::SS2), self.w_prime_word(j))),
        };
        sum_form(addends, 0, WireNumber(u.0 + wire::TT1), l)
    }

    // TT2 = GG + H + SS1 + Wj
    #[tactic(auto, unfolding(crate::specs::StepForms::tt2_form))]
    pub fn tt2_form(self, j: u64, l: u64) -> Form
        requires { (j < 64) × (l < 35) }
        ensures { (result ≡ tt2_form self.first.0 (stands_before self.first.0 self.begin.0 j) j l) × Fit result }
    {
        let u = self.round_first(j);
        let addends = || Addends {
            x: self.round_word(j, wire::GG),
            y: self.word_before(7, j),
            more: Some((self.ss1_word(j), self.expanded_word(j))),
        };
        sum_form(addends, 0, WireNumber(u.0 + wire::TT2), l)
    }

    pub fn p0_form(self, j: u64, l: u64) -> Form
        requires { (j < 64) × (l < 64) }
        ensures { (result ≡ p0_form self.first.0 j l) × Fit result }
    {
        p0_form(self.first, j, l)
    }
}
