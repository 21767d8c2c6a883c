// The programs `rows` and `steps`, `axle_rows` and `axle_steps`. What is read and written can stand in no contract; what is handed to the writes, one after
// the other, is `prints` (specs/Progress, `PrintsAll`).
use crate::progress::{Listing, begin, next_chunk};
use crate::request::Front;
use console::{print, read_input};
use forms::terms::RowTerms;
use std::io;

// Prints what a line asks for, chunk after chunk, up to the first write that fails.
fn print_chunks(rt: &HostRuntime, listing: Listing, front: Front, line: &[u8]) -> io::Result<()> {
    let mut out = [0u8; 65536];
    let mut terms = RowTerms::new();
    let mut progress = Some(begin(front, line));
    while let Some(now) = progress {
        let chunk = next_chunk(listing, now, &mut out, &mut terms);
        print(rt, &out[..chunk.bytes])?;
        progress = chunk.next;
    }
    Ok(())
}

// Prints what a line asks for. What fails has been said on standard error, and nothing is left to do.
pub fn print_listing(rt: &HostRuntime, listing: Listing, front: Front, line: &[u8]) {
    let _ = print_chunks(rt, listing, front, line);
}

// Prints what the line on standard input asks for.
pub fn run(rt: &HostRuntime, listing: Listing, front: Front) {
    // A line that is not refused has at most 40 bytes, so a buffer of 41 or more is enough to tell.
    let mut space = [0u8; 48];
    if let Ok(n) = read_input(rt, &mut space) {
        print_listing(rt, listing, front, &space[..n]);
    }
}
