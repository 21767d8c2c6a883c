// What a row's terms and parts come to, as residues.
ghost use Rattle.std.specs.Prelude.{◌≡◌, ◌+◌, ◌*◌, ◌%◌, ◌<◌, ◌≤◌, length};
ghost use Rattle.assignment.specs.Assignment.{entry};
ghost use Rattle.assignment.specs.Bounded.{BelowPrime};
ghost use Rattle.field.specs.Field.{p};
ghost use Rattle.satisfaction.specs.Sums.{added};

use assignment::entry::read;
use field::{P, product, sum};
use forms::form::Term;
use forms::terms::Counts;

// What the terms of A, of B and of C come to, as far as they are added up.
#[derive(Clone, Copy)]
pub struct Sums {
    pub a: u64,
    pub b: u64,
    pub c: u64,
}

// k times the number x. Nearly every entry of an honest assignment is 0 or 1, whose product needs no reduction; whether it is the
// one or the other is not asked, since the processor could not foresee the answer.
fn times(k: u64, x: u64) -> u64
    requires { (k < p) × (x < p) }
    ensures { result ≡ (k * x) % p }
{
    if 1 < x {
        return product(k, x);
    }
    k * x
}

// What a term adds: its residue times the entry of its wire.
pub fn term_value(assignment: &[u8], term: Term) -> u64
    requires { (8 * term.wire.0 + 8 ≤ length assignment.now) × (term.residue < p) × BelowPrime assignment.now }
    ensures { result ≡ (term.residue * entry assignment.now term.wire.0) % p }
{
    let wire = term.wire;
    times(term.residue, read(assignment, wire))
}

// The sums with x added to the part of term t, where the parts have so many terms.
pub fn add_term(sums: Sums, counts: Counts, t: usize, x: u64) -> Sums
    requires { (sums.a < p) × (sums.b < p) × (sums.c < p) × (x < p) }
    ensures { result ≡ added sums counts t x }
{
    if t < counts.a {
        return Sums {
            a: sum(sums.a, x),
            ..sums
        };
    }
    if t - counts.a < counts.b {
        return Sums {
            b: sum(sums.b, x),
            ..sums
        };
    }
    Sums {
        c: sum(sums.c, x),
        ..sums
    }
}

// The product of A and B. In an honest row A is 0, 1 or 2, and one subtraction reduces the product.
pub fn part_product(a: u64, b: u64) -> u64
    requires { (a < p) × (b < p) }
    ensures { result ≡ (a * b) % p }
{
    if 2 < a {
        return product(a, b);
    }
    let whole = a * b;
    if whole < P { whole } else { whole - P }
}
