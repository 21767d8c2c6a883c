// The messages that a circuit's blocks belong to.

// A message: how many bits it has, and at which block it begins.
#[derive(Clone, Copy, Debug, PartialEq, Eq)]
pub struct MessageSpan {
    pub bits: u64,
    pub begin: u64,
}
