// The line that a check prints.
use console::put;
use refusal::outcome::Refusal;

// The row or the wire that a refusal names.
fn print_named(rt: &HostRuntime, number: u64) {
    put(rt, ",");
    put(rt, number);
}

// The number of a refusal, and the row or the wire where it names one.
fn print_refusal(rt: &HostRuntime, refusal: Refusal) {
    put(rt, refusal.number());
    match refusal {
        Refusal::Unsatisfied(row) => print_named(rt, row.0),
        Refusal::EntryNotBelowPrime(wire) => print_named(rt, wire.0),
        _ => {}
    }
}

// The line of a check: the record's length in bits, what was done, the refusal's number, 0 where nothing is refused, and the row or
// the wire where it names one.
pub fn show(rt: &HostRuntime, bits: u64, what: &str, outcome: Result<(), Refusal>) {
    put(rt, bits);
    put(rt, ",");
    put(rt, what);
    put(rt, ",");
    match outcome {
        Ok(()) => put(rt, "0"),
        Err(refusal) => print_refusal(rt, refusal),
    }
    put(rt, "\n");
}
