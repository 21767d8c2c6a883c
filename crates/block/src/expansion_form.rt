// The rows of the expansion: q, P1(q), Wj and W'j of the block whose first wire is `first`. Each form names words of its own; how a row joins
// them is said once, in `forms::word_form`.
ghost use Rattle.std.specs.Prelude.{◌≡◌, ◌<◌, ◌≤◌};
ghost use Rattle.block.specs.Bounds.{BlockAt};
ghost use Rattle.block.specs.StepForms.{p1_form, q_form, w_form, w_prime_form};
ghost use Rattle.forms.specs.Terms.{Fit};

use crate::placed::Block;
use crate::wire::{expanded_word, expansion_first, w_prime_word};
use forms::form::Form;
use forms::position::{rotated, word_from};
use forms::word_form::{OfThree, pair, permuted, xor_of_two};
use refusal::numbers::WireNumber;

// q = W(j-16) xor W(j-9) xor W(j-3)<<<15
#[tactic(auto, unfolding(crate::specs::StepForms::q_form))]
pub fn q_form(first: WireNumber, j: u64, l: u64) -> Form
    requires { BlockAt first.0 × (16 ≤ j) × (j < 68) × (l < 64) }
    ensures { (result ≡ q_form first.0 j l) × Fit result }
{
    let x = expanded_word(first, j - 16);
    let y = expanded_word(first, j - 9);
    let z = rotated(15, expanded_word(first, j - 3));
    let r = word_from(expansion_first(first, j));
    pair(OfThree::Xor, x, y, z, r, l)
}

// P1(q)
#[tactic(auto, unfolding(crate::specs::StepForms::p1_form))]
pub fn p1_form(first: WireNumber, j: u64, l: u64) -> Form
    requires { BlockAt first.0 × (16 ≤ j) × (j < 68) × (l < 64) }
    ensures { (result ≡ p1_form first.0 j l) × Fit result }
{
    let q = expansion_first(first, j);
    permuted(q, 15, 23, WireNumber(q.0 + 32), l)
}

// Wj = P1(q) xor W(j-13)<<<7 xor W(j-6)
#[tactic(auto, unfolding(crate::specs::StepForms::w_form))]
pub fn w_form(first: WireNumber, j: u64, l: u64) -> Form
    requires { BlockAt first.0 × (16 ≤ j) × (j < 68) × (l < 64) }
    ensures { (result ≡ w_form first.0 j l) × Fit result }
{
    let q = expansion_first(first, j);
    let x = word_from(WireNumber(q.0 + 32));
    let y = rotated(7, expanded_word(first, j - 13));
    let z = expanded_word(first, j - 6);
    let r = expanded_word(first, j);
    pair(OfThree::Xor, x, y, z, r, l)
}

// W'j = Wj xor W(j+4)
#[tactic(auto, unfolding(crate::specs::StepForms::w_prime_form))]
pub fn w_prime_form(first: WireNumber, j: u64, l: u64) -> Form
    requires { BlockAt first.0 × (j < 64) × (l < 32) }
    ensures { (result ≡ w_prime_form first.0 j l) × Fit result }
{
    let x = expanded_word(first, j);
    let y = expanded_word(first, j + 4);
    let r = w_prime_word(first, j);
    xor_of_two(x, y, r, l)
}

// The same rows of a block that is known to stand where it may.
impl Block {
    pub fn q_form(self, j: u64, l: u64) -> Form
        requires { (16 ≤ j) × (j < 68) × (l < 64) }
        ensures { (result ≡ q_form self.first.0 j l) × Fit result }
    {
        q_form(self.first, j, l)
    }

    pub fn p1_form(self, j: u64, l: u64) -> Form
        requires { (16 ≤ j) × (j < 68) × (l < 64) }
        ensures { (result ≡ p1_form self.first.0 j l) × Fit result }
    {
        p1_form(self.first, j, l)
    }

    pub fn w_form(self, j: u64, l: u64) -> Form
        requires { (16 ≤ j) × (j < 68) × (l < 64) }
        ensures { (result ≡ w_form self.first.0 j l) × Fit result }
    {
        w_form(self.first, j, l)
    }

    pub fn w_prime_form(self, j: u64, l: u64) -> Form
        requires { (j < 64) × (l < 32) }
        ensures { (result ≡ w_prime_form self.first.0 j l) × Fit result }
    {
        w_prime_form(self.first, j, l)
    }
}
