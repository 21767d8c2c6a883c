// Standard input and output. What is read and written can stand in no contract. What fails is said on standard error and
// handed back, but by `put`, which goes on.
#![tactic(auto)]

ghost use Rattle.std.specs.Prelude.{IfOk, ◌≤◌, length};

use std::fmt::Display;
use std::io::{self, Read, Write};

// Reads standard input to its end, or until the buffer is full, and gives how many bytes it read.
fn fill(rt: &HostRuntime, buf: &mut [u8]) -> io::Result<usize>
    ensures { IfOk result (λ n. n ≤ length buf.new) }
{
    let mut n = 0;
    // A read gives as many bytes as it likes, so the place is counted here.
    while n < buf.len() {
        let more = rt.stdin().read(&mut buf[n..])?;
        if more == 0 {
            break;
        }
        n += more;
    }
    Ok(n)
}

// Reads standard input to its end, or until the buffer is full. Whether more follows what fills the buffer is not seen: a
// buffer is long enough to tell a right input from any other if it holds one byte more than the longest right one.
pub fn read_input(rt: &HostRuntime, buf: &mut [u8]) -> io::Result<usize>
    ensures { IfOk result (λ n. n ≤ length buf.new) }
{
    fill(rt, buf).inspect_err(|_| say_unread(rt))
}

// Says on standard error that a read failed; where that fails too, nothing is left to do.
pub fn say_unread(rt: &HostRuntime) {
    let _ = eprintln!(rt; "cannot read standard input");
}

// Says on standard error that a write failed; where that fails too, nothing is left to do.
pub fn say_unwritten(rt: &HostRuntime) {
    let _ = eprintln!(rt; "cannot write to standard output");
}

// Writes to standard output.
pub fn print(rt: &HostRuntime, s: &[u8]) -> io::Result<()> {
    rt.stdout().write_all(s).inspect_err(|_| say_unwritten(rt))
}

// Prints a value, and says on standard error where that fails.
pub fn put<D: Display + Drop>(rt: &HostRuntime, value: D) {
    if rt.print(value).is_err() {
        say_unwritten(rt);
    }
}
