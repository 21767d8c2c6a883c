// The terms of a row form.
ghost use Rattle.std.specs.Prelude.{◌≡◌, ℕ, ◌+◌, ◌-◌, ◌*◌, ◌^◌, ◌<◌, ◌≤◌, [], ◌∷◌, ◌++◌, IfSome, length, slice_index_or};
ghost use Rattle.field.specs.Field.{p};
ghost use Rattle.forms.specs.Bounds.{Small, Within};
ghost use Rattle.forms.specs.Rows.{◌·◌, addend_terms, digit_terms, less, nonzero, number_terms, sorted, taken, weighted};
ghost use Rattle.forms.specs.Rows as rows;
ghost use Rattle.forms.specs.Shape.{Distinct, most_terms};
ghost use Rattle.forms.specs.Terms.{Fit, FitDifference, all_terms, counted, held, unsorted};
ghost use Rattle.forms.specs.declared.form.Term.{Term};
ghost use Rattle.forms.specs.declared.form.Form.TheVariants.{Bit, Choice, Difference, Equal, Fixed, Majority, Sum, XorOfThree, XorOfTwo};

use crate::form::{Addends, Bound, Digits, Form, Term};
use crate::part::Part;
use crate::position::{WordPosition, wire_of_bit, wire_past};
use field::P;
use refusal::numbers::WireNumber;

// No row has more terms.
pub const MOST_TERMS: usize = 163;

// The terms of a row. Those of B and C are few.
#[derive(Drop)]
pub struct RowTerms {
    pub a: Part<MOST_TERMS>,
    pub b: Part<5>,
    pub c: Part<3>,
}

// How many terms A, B and C have.
#[derive(Clone, Copy, Debug, PartialEq, Eq)]
pub struct Counts {
    pub a: usize,
    pub b: usize,
    pub c: usize,
}

impl RowTerms {
    // Room for the terms of any row.
    pub fn new() -> RowTerms
        ensures { result ≡ record { a = []; b = []; c = [] } }
    {
        RowTerms {
            a: Part::new(),
            b: Part::new(),
            c: Part::new(),
        }
    }

    pub fn counts(&self) -> Counts
        ensures { result ≡ counted self.now }
    {
        Counts {
            a: self.a.len(),
            b: self.b.len(),
            c: self.c.len(),
        }
    }

    // Term t, counted through A, then B, then C.
    #[tactic(auto, using(crate::proofs::terms::Indexed::in_first, crate::proofs::terms::Indexed::in_second, crate::proofs::terms::Indexed::in_third))]
    pub fn term(&self, t: usize) -> Term
        requires { t < length (all_terms self.now) }
        ensures { (d : Term) → result ≡ slice_index_or (all_terms self.now) t d }
    {
        let a = self.a.as_slice();
        if t < a.len() {
            return a[t];
        }
        let t = t - a.len();
        let b = self.b.as_slice();
        if t < b.len() {
            return b[t];
        }
        self.c.as_slice()[t - b.len()]
    }

    // Puts the terms of each part in the order of their wires.
    pub fn sort(&mut self)
        requires { Distinct self.old.a × Distinct self.old.b × Distinct self.old.c }
        ensures { self.new ≡ record { a = sorted self.old.a; b = sorted self.old.b; c = sorted self.old.c } }
    {
        self.a.sort();
        self.b.sort();
        self.c.sort();
    }

    // Puts these terms, without the zero ones, in place of those that it has.
    fn set(&mut self, a: &[Term], b: &[Term], c: &[Term])
        requires { (length a.now ≤ most_terms) × (length b.now ≤ 5) × (length c.now ≤ 3) }
        ensures { self.new ≡ record { a = nonzero a.now; b = nonzero b.now; c = nonzero c.now } }
    {
        self.a.set(a);
        self.b.set(b);
        self.c.set(c);
    }
}

// The weights of a sum's carries, 2^33 and then 2^32.
const HIGH_CARRY: u64 = 8589934592;

const LOW_CARRY: u64 = 4294967296;

// Wire 0, the constant 1.
const ONE: WireNumber = WireNumber(0);

// k times a wire.
fn times(k: u64, wire: WireNumber) -> Term
    ensures { result ≡ k · wire }
{
    Term { wire, residue: k }
}

// k times a wire taken off.
fn minus(k: u64, wire: WireNumber) -> Term
    requires { k ≤ p }
    ensures { result ≡ less k · wire }
{
    times(P - k, wire)
}

// k put on, or taken off: `plus` is the definitions' own word for the side (`number_terms`), and an enum would be no plainer.
fn with_sign(plus: bool, k: u64) -> u64
    requires { k ≤ p }
    ensures { result ≡ rows.with_sign plus k }
{
    if plus { k } else { P - k }
}

// Puts on k times the number on `width` wires from w on, or takes it off.
fn push_number(part: &mut Part<MOST_TERMS>, plus: bool, k: u64, width: u64, w: WireNumber)
    requires { (length part.old + width ≤ most_terms) × (k ≤ 10) × (width ≤ 32) × Small w.0 }
    ensures end { part.new ≡ part.old ++ nonzero (number_terms plus k width w) }
    ensures room { length part.new ≤ length part.old + width }
{
    for i in 0..width {
        let weight = 1 << (width - 1 - i);
        part.push(times(with_sign(plus, k * weight), wire_past(w, i)));
    }
}

// Puts on a word's wires with their weights. They turn with the word, so they are no number on wires that follow each other.
fn push_word(part: &mut Part<MOST_TERMS>, x: WordPosition)
    requires { (length part.old + 32 ≤ most_terms) × Within x }
    ensures end { part.new ≡ part.old ++ nonzero (weighted x) }
    ensures room { length part.new ≤ length part.old + 32 }
{
    for i in 0..32 {
        part.push(times(1 << (31 - i), wire_of_bit(x, i)));
    }
}

// Puts on the words that are added up.
#[tactic(auto, using(crate::proofs::terms::Pushed::two_pushed))]
fn push_addends(part: &mut Part<MOST_TERMS>, s: Addends)
    requires { (length part.old + 128 ≤ most_terms) × Within s.x × Within s.y × IfSome s.more (λ words. Within words.0 × Within words.1) }
    ensures end { part.new ≡ part.old ++ nonzero (addend_terms s) }
    ensures room { length part.new ≤ length part.old + 128 }
{
    push_word(part, s.x);
    push_word(part, s.y);
    if let Some((z, t)) = s.more {
        push_word(part, z);
        push_word(part, t);
    }
}

// Takes off a result, whose 32 wires begin at r, and its carries, which weigh 2^33 and 2^32.
#[tactic(auto, using(crate::proofs::terms::Pushed::taken_pushed))]
fn push_taken(part: &mut Part<MOST_TERMS>, r: WireNumber)
    requires { (length part.old + 34 ≤ most_terms) × Small r.0 }
    ensures end { part.new ≡ part.old ++ nonzero (taken r) }
    ensures room { length part.new ≤ length part.old + 34 }
{
    push_number(part, false, 1, 32, r);
    part.push(minus(HIGH_CARRY, wire_past(r, 32)));
    part.push(minus(LOW_CARRY, wire_past(r, 33)));
}

// Puts on one digit or two, or takes them off.
#[tactic(auto, using(crate::proofs::terms::Pushed::one_digit))]
fn push_digits(part: &mut Part<MOST_TERMS>, plus: bool, d: Digits)
    requires { (length part.old + 8 ≤ most_terms) × Small d.units.0 × IfSome d.tens (λ w. Small w.0) }
    ensures end { part.new ≡ part.old ++ nonzero (digit_terms plus d) }
    ensures room { length part.new ≤ length part.old + 8 }
{
    push_number(part, plus, 1, 4, d.units);
    if let Some(tens) = d.tens {
        push_number(part, plus, 10, 4, tens);
    }
}

// w × 1 = bit
#[tactic(auto, unfolding(crate::specs::Rows::letters, crate::specs::Terms::unsorted))]
fn fill_fixed(terms: &mut RowTerms, w: WireNumber, bit: u64)
    ensures { terms.new ≡ held (unsorted (Fixed w bit)) }
{
    terms.set(&[times(1, w)], &[times(1, ONE)], &[times(bit, ONE)]);
}

// w × (w - 1) = 0
#[tactic(auto, unfolding(crate::specs::Rows::letters, crate::specs::Terms::unsorted))]
fn fill_bit(terms: &mut RowTerms, w: WireNumber)
    ensures { terms.new ≡ held (unsorted (Bit w)) }
{
    terms.set(&[times(1, w)], &[times(1, w), minus(1, ONE)], &[]);
}

// 2x × y = x + y - r
#[tactic(auto, unfolding(crate::specs::Rows::letters, crate::specs::Terms::unsorted))]
fn fill_xor_of_two(terms: &mut RowTerms, x: WireNumber, y: WireNumber, r: WireNumber)
    ensures { terms.new ≡ held (unsorted (XorOfTwo x y r)) }
{
    let sum = [times(1, x), times(1, y), minus(1, r)];
    terms.set(&[times(2, x)], &[times(1, y)], &sum);
}

// (x + y + z - r) × (x + y + z - r - 2) = 0
#[tactic(auto, unfolding(crate::specs::Rows::letters, crate::specs::Terms::unsorted))]
fn fill_xor_of_three(
    terms: &mut RowTerms,
    x: WireNumber,
    y: WireNumber,
    z: WireNumber,
    r: WireNumber,
)
    ensures { terms.new ≡ held (unsorted (XorOfThree x y z r)) }
{
    let (x, y, z, r) = (times(1, x), times(1, y), times(1, z), minus(1, r));
    terms.set(&[x, y, z, r], &[x, y, z, r, minus(2, ONE)], &[]);
}

// (x + y + z - 2r) × (1 - x - y - z + 2r) = 0
#[tactic(auto, unfolding(crate::specs::Rows::letters, crate::specs::Terms::unsorted))]
fn fill_majority(terms: &mut RowTerms, x: WireNumber, y: WireNumber, z: WireNumber, r: WireNumber)
    ensures { terms.new ≡ held (unsorted (Majority x y z r)) }
{
    let a = [times(1, x), times(1, y), times(1, z), minus(2, r)];
    let b = [
        times(1, ONE),
        minus(1, x),
        minus(1, y),
        minus(1, z),
        times(2, r),
    ];
    terms.set(&a, &b, &[]);
}

// x × (y - z) = r - z
#[tactic(auto, unfolding(crate::specs::Rows::letters, crate::specs::Terms::unsorted))]
fn fill_choice(terms: &mut RowTerms, x: WireNumber, y: WireNumber, z: WireNumber, r: WireNumber)
    ensures { terms.new ≡ held (unsorted (Choice x y z r)) }
{
    let less_z = minus(1, z);
    terms.set(
        &[times(1, x)],
        &[times(1, y), less_z],
        &[times(1, r), less_z],
    );
}

// (addends + constant - result - carries) × 1 = 0
#[tactic(auto, using(crate::proofs::terms::Pushed::three_pushed), unfolding(crate::specs::Rows::letters, crate::specs::Rows::nonzero, crate::specs::Terms::unsorted))]
fn fill_sum(terms: &mut RowTerms, addends: Addends, constant: u64, r: WireNumber)
    requires { Fit (Sum addends constant r) }
    ensures { terms.new ≡ held (unsorted (Sum addends constant r)) }
{
    terms.a.clear();
    push_addends(&mut terms.a, addends);
    terms.a.push(times(constant, ONE));
    push_taken(&mut terms.a, r);
    terms.b.set(&[times(1, ONE)]);
    terms.c.clear();
}

// (x - y) × 1 = 0
#[tactic(auto, unfolding(crate::specs::Rows::letters, crate::specs::Terms::unsorted))]
fn fill_equal(terms: &mut RowTerms, x: WireNumber, y: WireNumber)
    ensures { terms.new ≡ held (unsorted (Equal x y)) }
{
    terms.set(&[times(1, x), minus(1, y)], &[times(1, ONE)], &[]);
}

// (digits - bound - bits) × 1 = 0, or (bound - digits - bits) × 1 = 0
#[tactic(auto, using(crate::proofs::terms::Pushed::three_pushed), unfolding(crate::specs::Rows::letters, crate::specs::Rows::nonzero, crate::specs::Terms::unsorted))]
fn fill_difference(terms: &mut RowTerms, digits: Digits, bound: Bound, width: u64, r: WireNumber)
    requires { FitDifference digits bound width r }
    ensures { terms.new ≡ held (unsorted (Difference digits bound width r)) }
{
    let lower = bound.is_lower();
    terms.a.clear();
    push_digits(&mut terms.a, lower, digits);
    terms.a.push(times(with_sign(!lower, bound.value()), ONE));
    push_number(&mut terms.a, false, 1, width, r);
    terms.b.set(&[times(1, ONE)]);
    terms.c.clear();
}

// The terms of a form, in the order of the equation.
pub fn fill(form: Form, terms: &mut RowTerms)
    requires { Fit form }
    ensures { terms.new ≡ held (unsorted form) }
{
    match form {
        Form::Fixed { w, bit } => fill_fixed(terms, w, bit),
        Form::Bit { w } => fill_bit(terms, w),
        Form::XorOfTwo { x, y, r } => fill_xor_of_two(terms, x, y, r),
        Form::XorOfThree { x, y, z, r } => fill_xor_of_three(terms, x, y, z, r),
        Form::Majority { x, y, z, r } => fill_majority(terms, x, y, z, r),
        Form::Choice { x, y, z, r } => fill_choice(terms, x, y, z, r),
        Form::Sum {
            addends,
            constant,
            r,
        } => fill_sum(terms, addends, constant, r),
        Form::Equal { x, y } => fill_equal(terms, x, y),
        Form::Difference {
            digits,
            bound,
            width,
            r,
        } => fill_difference(terms, digits, bound, width, r),
    }
}
