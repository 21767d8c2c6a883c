// Prints whether the claim on standard input is accepted.
#![tactic(auto)]

use claim::program::run;

fn main(rt: HostRuntime) {
    run(&rt);
}
