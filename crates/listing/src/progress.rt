// What a program has still to print, chunk by chunk.
ghost use Rattle.std.specs.Prelude.{Some, ◌≡◌, ◌+◌, ◌<◌, ◌≤◌, length};
ghost use Rattle.circuit.specs.Places.{row_count};
ghost use Rattle.circuit.specs.Ranges.{Allowed};
ghost use Rattle.listing.specs.Listing.{header, lines};
ghost use Rattle.listing.specs.Progress.{Handed, IfPossible, Possible, RowsExist, room};
ghost use Rattle.listing.specs.Request.{request_of};
ghost use Rattle.text.specs.Put.{Put};

use crate::request::{Front, Rows, request_of};
use crate::step::{STEP_ROOM, put_step_line};
use crate::term::{ROW_ROOM, put_row};
use circuit::circuits::Circuit;
use forms::terms::RowTerms;
use refusal::line::LineRefusal;
use refusal::numbers::RowNumber;
use text::literal::put_text;
use text::refused::put_refusal;

// The programs' two listings. A trait would say no more than these three matches: the theorems on what is printed are of
// both listings at once (`PrintsAll`).
#[derive(Clone, Copy, Debug, PartialEq, Eq)]
pub enum Listing {
    // The terms of each row.
    Rows,
    // The step that each row stands for.
    Steps,
}

// What is still to be printed.
#[derive(Clone, Copy)]
pub enum Progress {
    // The first line and the lines of the rows that are asked for, or the refusal.
    Begun(Result<Rows, LineRefusal>),
    // The lines of rows.
    Lines(Rows),
}

// How many bytes at the front of a buffer are to be printed next, and what is to be printed after them, if anything is.
#[derive(Clone, Copy)]
pub struct Chunk {
    pub bytes: usize,
    pub next: Option<Progress>,
}

// What is to be printed for the bytes of standard input.
#[tactic(auto, using(crate::proofs::Requests::begin_possible))]
pub fn begin(front: Front, line: &[u8]) -> Progress
    ensures { (result ≡ Progress.Begun (request_of front line.now)) × Possible result }
{
    Progress::Begun(request_of(front, line))
}

// How many bytes the lines of a row take at most.
fn room_of(listing: Listing) -> usize
    ensures { result ≡ room listing }
{
    match listing {
        Listing::Rows => ROW_ROOM,
        Listing::Steps => STEP_ROOM,
    }
}

// The first line.
fn put_header(listing: Listing, out: &mut [u8]) -> usize
    requires { 30 ≤ length out.old }
    ensures { Put out.old 0 (header listing) out.new result × (result ≤ 30) }
{
    match listing {
        Listing::Rows => put_text(out, 0, b"row,part,wire,coefficient\n"),
        Listing::Steps => put_text(out, 0, b"row,block,step,index,bit,form\n"),
    }
}

// The lines of a row. `terms` is room for its terms.
fn put_lines(
    listing: Listing,
    out: &mut [u8],
    at: usize,
    circuit: Circuit,
    row: RowNumber,
    terms: &mut RowTerms,
) -> usize
    requires { (at + room listing ≤ length out.old) × Allowed circuit × (row.0 < row_count circuit) }
    ensures { Put out.old at (lines listing circuit row.0) out.new result × (result ≤ at + room listing) }
{
    match listing {
        Listing::Rows => put_row(out, at, circuit, row, terms),
        Listing::Steps => put_step_line(out, at, circuit, row),
    }
}

// The first line, or the refusal.
fn first_chunk(listing: Listing, request: Result<Rows, LineRefusal>, out: &mut [u8]) -> Chunk
    requires { room listing ≤ length out.old }
    ensures { Handed listing (Progress.Begun request) out.old out.new result }
{
    match request {
        Ok(rows) => Chunk {
            bytes: put_header(listing, out),
            next: Some(Progress::Lines(rows)),
        },
        Err(refusal) => Chunk {
            bytes: put_refusal(out, refusal.number()),
            next: None,
        },
    }
}

// The lines of rows, all or as many as the buffer holds.
fn fill(listing: Listing, rows: Rows, out: &mut [u8], terms: &mut RowTerms) -> Chunk
    requires { (room listing ≤ length out.old) × RowsExist rows }
    ensures { Handed listing (Progress.Lines rows) out.old out.new result }
{
    let end = rows.first.0 + rows.many;
    let mut at = 0;
    for k in rows.first.0..end {
        if out.len() - at < room_of(listing) {
            let left = Rows {
                first: RowNumber(k),
                many: end - k,
                ..rows
            };
            return Chunk {
                bytes: at,
                next: Some(Progress::Lines(left)),
            };
        }
        at = put_lines(listing, out, at, rows.circuit, RowNumber(k), terms);
    }
    Chunk {
        bytes: at,
        next: None,
    }
}

// The next chunk, at the front of `out`. `terms` is room for the terms of a row.
pub fn next_chunk(
    listing: Listing,
    progress: Progress,
    out: &mut [u8],
    terms: &mut RowTerms,
) -> Chunk
    requires { (room listing ≤ length out.old) × Possible progress }
    ensures { Handed listing progress out.old out.new result × IfPossible result.next }
{
    match progress {
        Progress::Begun(request) => first_chunk(listing, request, out),
        Progress::Lines(rows) => fill(listing, rows, out, terms),
    }
}
