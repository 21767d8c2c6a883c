// The bytes of terms: 12 a term, its wire in 4 and its coefficient in 8, two's complement, the least byte first.
ghost use Rattle.std.specs.Prelude.{◌≡◌, ◌+◌, ◌*◌, ◌<◌, ◌≤◌, length};
ghost use Rattle.encoding.specs.Bytes.{least_first, twos_complement};
ghost use Rattle.encoding.specs.Written.{Written};
ghost use Rattle.field.specs.Field.{p};
ghost use Rattle.forms.specs.Coefficients.{signed};
ghost use Rattle.forms.specs.Shape.{All};
ghost use Rattle.forms.specs.TermBytes.{term_bytes, terms_bytes};
ghost use Rattle.forms.specs.Terms.{all_terms};

use crate::coefficient::coefficient_of;
use crate::form::Term;
use crate::terms::RowTerms;
use encoding::write::put_number;

// The number whose 8 bytes are those of the coefficient whose residue is k.
#[tactic(auto, using(crate::proofs::term_bytes::TermBytes::coefficient_bytes))]
fn coefficient_bits(k: u64) -> u64
    requires { k < p }
    ensures { least_first 8 result ≡ twos_complement 8 (signed k) }
{
    coefficient_of(k).cast_unsigned()
}

// Writes the 12 bytes of a term from `at` on.
fn put_term(out: &mut [u8], at: usize, term: Term)
    requires { (at + 12 ≤ length out.old) × (term.residue < p) }
    ensures { Written at (term_bytes term) out.old out.new }
{
    put_number(out, at, 4, term.wire.0);
    put_number(out, at + 4, 8, coefficient_bits(term.residue));
}

// Writes terms, one behind the other, from `at` on.
pub fn put_part(out: &mut [u8], at: usize, terms: &[Term])
    requires { (at + 12 * length terms.now ≤ length out.old) × All (λ t. t.residue < p) terms.now }
    ensures { Written at (terms_bytes terms.now) out.old out.new }
{
    let mut end = at;
    for term in terms {
        put_term(out, end, *term);
        end += 12;
    }
}

// Writes the terms of a row to the front of `out`: those of A, then B, then C.
pub fn put_terms(terms: &RowTerms, out: &mut [u8])
    requires { (12 * length (all_terms terms.now) ≤ length out.old) × All (λ t. t.residue < p) (all_terms terms.now) }
    ensures { Written 0 (terms_bytes (all_terms terms.now)) out.old out.new }
{
    let b = 12 * terms.a.len();
    put_part(out, 0, terms.a.as_slice());
    put_part(out, b, terms.b.as_slice());
    put_part(out, b + 12 * terms.b.len(), terms.c.as_slice());
}
