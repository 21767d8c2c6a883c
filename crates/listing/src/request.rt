// What a line asks for, or why it is refused.
ghost use Rattle.std.specs.Prelude.{◌≡◌, ◌<◌};
ghost use Rattle.circuit.specs.Ranges.{Allowed};
ghost use Rattle.listing.specs.AxleLine.{parse_axles_of};
ghost use Rattle.listing.specs.Line.{parse_of};
ghost use Rattle.listing.specs.Request as specs;
ghost use Rattle.listing.specs.Request.{asked, asked_axles, request_number, request_of};

use crate::axle_line::parse_axles;
use crate::line::parse;
use circuit::band::Band;
use circuit::circuits::Circuit;
use circuit::place::row_count;
use limits::limit::{OUR_LIMIT, ask_length};
use refusal::line::LineRefusal;
use refusal::numbers::RowNumber;
use refusal::outcome::Refusal;

// What stands at the front of a line, before the first row and how many.
#[derive(Clone, Copy, Debug, PartialEq, Eq)]
pub enum Front {
    // The length of a record in bits.
    Length,
    // The lower and the upper bound on axles.
    Bounds,
}

// So many rows of a circuit from `first` on.
#[derive(Clone, Copy)]
pub struct Rows {
    pub circuit: Circuit,
    pub first: RowNumber,
    pub many: u64,
}

// So many rows of a circuit from `first` on, or refusal 3 where there are not so many.
#[tactic(auto, unfolding(crate::specs::Request::within))]
fn within(circuit: Circuit, first: u64, many: u64) -> Result<Rows, LineRefusal>
    requires { Allowed circuit × (first < 1000000000) × (many < 1000000000) }
    ensures { result ≡ specs.within circuit first many }
{
    if row_count(circuit) < first + many {
        return Err(LineRefusal::Refused(Refusal::RowOutOfRange));
    }
    Ok(Rows {
        circuit,
        first: RowNumber(first),
        many,
    })
}

// What a line with a length asks for, or refusal 1, 2 or 3. This function and the next differ in the line, the test and the circuit: one for both
// would take all three as closures, and be longer.
#[tactic(auto, using(limits::proofs::limit::Tests::length_passed), unfolding(crate::specs::Request::checked))]
fn record_request(line: &[u8]) -> Result<Rows, LineRefusal>
    ensures { result ≡ asked (parse_of line.now) }
{
    let parsed = parse(line).ok_or(LineRefusal::BadLine)?;
    ask_length(OUR_LIMIT, parsed.leading)?;
    let circuit = Circuit::Record {
        bits: parsed.leading,
    };
    within(circuit, parsed.first, parsed.many)
}

// What a line with two bounds asks for, or refusal 1, 18 or 3.
#[tactic(auto, unfolding(crate::specs::Request::checked_axles))]
fn axle_request(line: &[u8]) -> Result<Rows, LineRefusal>
    ensures { result ≡ asked_axles (parse_axles_of line.now) }
{
    let parsed = parse_axles(line).ok_or(LineRefusal::BadLine)?;
    let band = Band::new(parsed.lower, parsed.upper).ok_or(Refusal::BoundsOutOfRange)?;
    within(band.circuit(), parsed.first, parsed.many)
}

// What a line asks for.
#[tactic(auto, unfolding(crate::specs::Request::request_of))]
pub fn request_of(front: Front, line: &[u8]) -> Result<Rows, LineRefusal>
    ensures { result ≡ request_of front line.now }
{
    match front {
        Front::Length => record_request(line),
        Front::Bounds => axle_request(line),
    }
}

// The number of a refusal, 0 for none.
pub fn refusal_number(request: Result<Rows, LineRefusal>) -> u64
    ensures { result ≡ request_number request }
{
    match request {
        Ok(_) => 0,
        Err(refusal) => refusal.number(),
    }
}
