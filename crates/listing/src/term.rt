// The lines of a row's terms: `row,part,wire,coefficient`.
ghost use Rattle.std.specs.Prelude.{◌+◌, ◌*◌, ◌<◌, ◌≤◌, length};
ghost use Rattle.circuit.specs.Places.{row_count};
ghost use Rattle.circuit.specs.Ranges.{Allowed};
ghost use Rattle.field.specs.Field.{p};
ghost use Rattle.forms.specs.Coefficients.{signed};
ghost use Rattle.forms.specs.Shape.{All};
ghost use Rattle.listing.specs.Rows.{line_room, part_lines, row_lines, row_room, term_line};
ghost use Rattle.text.specs.Decimal.{signed_field};
ghost use Rattle.text.specs.Put.{Put};
ghost use Rattle.text.specs.Text.{line_feed};

use circuit::circuits::Circuit;
use circuit::row::row_terms;
use forms::coefficient::coefficient_of;
use forms::form::Term;
use forms::terms::RowTerms;
use refusal::numbers::RowNumber;
use text::decimal::put_field;

// How many bytes the lines of a row take at most: 163 terms, each of a line of at most 66 bytes.
pub const ROW_ROOM: usize = 163 * 66;

// The coefficient whose residue is k, and the end of the line.
#[tactic(auto, unfolding(text::specs::Decimal::signed_field))]
fn put_coefficient(out: &mut [u8], at: usize, k: u64) -> usize
    requires { (at + 22 ≤ length out.old) × (k < p) }
    ensures { Put out.old at (signed_field (signed k) line_feed) out.new result × (result ≤ at + 22) }
{
    let coefficient = coefficient_of(k);
    let magnitude = coefficient.unsigned_abs();
    if coefficient < 0 {
        out[at] = b'-';
        return put_field(out, at + 1, magnitude, b'\n');
    }
    put_field(out, at, magnitude, b'\n')
}

// The line of a term.
pub fn put_term_line(out: &mut [u8], at: usize, row: RowNumber, part: u8, term: Term) -> usize
    requires { (at + line_room ≤ length out.old) × (term.residue < p) }
    ensures { Put out.old at (term_line row.0 part term.wire.0 (signed term.residue)) out.new result × (result ≤ at + line_room) }
{
    let a = put_field(out, at, row.0, b',');
    out[a] = part;
    out[a + 1] = b',';
    let b = put_field(out, a + 2, term.wire.0, b',');
    put_coefficient(out, b, term.residue)
}

// The lines of a part.
fn put_part(out: &mut [u8], at: usize, row: RowNumber, part: u8, terms: &[Term]) -> usize
    requires { (at + line_room * length terms.now ≤ length out.old) × All (λ t. t.residue < p) terms.now }
    ensures { Put out.old at (part_lines row.0 part terms.now) out.new result × (result ≤ at + line_room * length terms.now) }
{
    let mut end = at;
    for term in terms {
        end = put_term_line(out, end, row, part, *term);
    }
    end
}

// The lines of a row of a circuit. `terms` is room for its terms.
pub fn put_row(
    out: &mut [u8],
    at: usize,
    circuit: Circuit,
    row: RowNumber,
    terms: &mut RowTerms,
) -> usize
    requires { (at + row_room ≤ length out.old) × Allowed circuit × (row.0 < row_count circuit) }
    ensures { Put out.old at (row_lines circuit row.0) out.new result × (result ≤ at + row_room) }
{
    row_terms(circuit, row, terms);
    let a = put_part(out, at, row, b'A', terms.a.as_slice());
    let b = put_part(out, a, row, b'B', terms.b.as_slice());
    put_part(out, b, row, b'C', terms.c.as_slice())
}
