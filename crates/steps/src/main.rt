// Prints what the line on standard input asks for.
#![tactic(auto)]

use listing::program::run;
use listing::progress::Listing;
use listing::request::Front;

fn main(rt: HostRuntime) {
    run(&rt, Listing::Steps, Front::Length);
}
