// Numbers of rows, of wires and of a line's bytes, which all count from 0 and are never taken for each other.

// A row's number.
#[derive(Clone, Copy, Debug, PartialEq, Eq, PartialOrd, Ord)]
pub struct RowNumber(pub u64);

// A wire's number.
#[derive(Clone, Copy, Debug, PartialEq, Eq, PartialOrd, Ord)]
pub struct WireNumber(pub u64);

// The number of a byte in a line.
#[derive(Clone, Copy, Debug, PartialEq, Eq, PartialOrd, Ord)]
pub struct ByteNumber(pub u64);
