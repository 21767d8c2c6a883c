// The terms of A, of B or of C, in memory of a fixed size. Zero ones are left out.
ghost use Rattle.std.specs.Prelude.{◌≡◌, ◌+◌, ◌<◌, ◌≤◌, List, [], ◌∷◌, ◌++◌, length, take};
ghost use Rattle.forms.specs.Rows.{nonzero, sorted};
ghost use Rattle.forms.specs.Shape.{Distinct};
ghost use Rattle.forms.specs.declared.form.Term.{Term};

use crate::form::Term;
use refusal::numbers::WireNumber;
use std::marker::Model;

// At most ROOM terms.
#[derive(Drop)]
pub struct Part<const ROOM: usize> {
    terms: [Term; ROOM],
    count: usize,
}

// A clause sees the terms alone.
impl<const ROOM: usize> Model for Part<ROOM> {
    ghost Value = { List Term };

    ghost view = { λ s. take s.count s.terms };

    ghost invariant = { λ s. s.count ≤ ROOM };
}

impl<const ROOM: usize> Part<ROOM> {
    pub fn new() -> Self
        ensures { result ≡ [] }
    {
        let none = Term {
            wire: WireNumber(0),
            residue: 0,
        };
        Part {
            terms: [none; ROOM],
            count: 0,
        }
    }

    pub fn as_slice(&self) -> &[Term]
        ensures { result.now ≡ self.now }
    {
        &self.terms[..self.count]
    }

    #[tactic(auto, unfolding(crate::specs::Rows::nonzero))]
    pub fn clear(&mut self)
        ensures { self.new ≡ [] }
    {
        self.set(&[]);
    }

    pub fn len(&self) -> usize
        ensures { result ≡ length self.now }
    {
        self.as_slice().len()
    }

    // Adds a term at the end, unless it is a zero one.
    #[tactic(auto, using(crate::proofs::shape::Nonzero::nonzero_drops, crate::proofs::shape::Nonzero::nonzero_keeps))]
    pub fn push(&mut self, term: Term)
        requires { length self.old < ROOM }
        ensures end { self.new ≡ self.old ++ nonzero (term ∷ []) }
        ensures room { length self.new ≤ length self.old + 1 }
    {
        if term.residue == 0 {
            return;
        }
        self.terms[self.count] = term;
        self.count += 1;
    }

    // Puts these terms in place of those that it has.
    #[tactic(auto, using(crate::proofs::shape::Nonzero::nonzero_append), unfolding(crate::specs::Rows::nonzero))]
    pub fn set(&mut self, terms: &[Term])
        requires { length terms.now ≤ ROOM }
        ensures { self.new ≡ nonzero terms.now }
    {
        self.count = 0;
        for term in terms {
            self.push(*term);
        }
    }

    // Puts the terms in the order of their wires, which differ: then std's sort gives what `sort_run` would, and a long row sooner.
    pub fn sort(&mut self)
        requires { Distinct self.old }
        ensures { self.new ≡ sorted self.old }
    {
        self.terms[..self.count].sort_unstable_by_key(|term| term.wire.0);
    }
}
