// The steps of the hash that rows stand for.
ghost use Rattle.std.specs.Prelude.{◌≡◌, ◌<◌, ◌≤◌};
ghost use Rattle.block.specs.Steps.{lines};

// The steps of the layout, in its order: those of a block, and around the blocks the start words, the digest, and what a circuit
// appends, a row each.
#[derive(Clone, Copy, Debug, PartialEq, Eq)]
pub enum Step {
    Start,
    Message,
    Q,
    P1,
    W,
    WPrime,
    U,
    Ss2,
    Ff,
    Gg,
    Tt1,
    Tt2,
    P0,
    Result,
    Digest,
    Appended,
}

// How many rows word `index` of a step has.
pub fn lines_of(step: Step, index: u64) -> u64
    ensures { (result ≡ lines step index) × (1 ≤ result) × (result ≤ 64) }
{
    match step {
        Step::Start | Step::Message | Step::WPrime | Step::Ss2 | Step::Result | Step::Digest => 32,
        Step::Q | Step::P1 | Step::W | Step::Ff | Step::P0 => 64,
        Step::U | Step::Tt1 | Step::Tt2 => 35,
        Step::Gg if index < 16 => 64,
        Step::Gg => 32,
        Step::Appended => 1,
    }
}
