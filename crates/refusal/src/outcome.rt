// The refusals that several operations share. The answer of an operation that hands nothing back is a `Result<(), Refusal>`: it is done, or it
// is refused and no lent byte is altered.
ghost use Rattle.std.specs.Prelude.{◌≡◌, ◌<◌};
ghost use Rattle.refusal.specs.Packing.{above};
ghost use Rattle.refusal.specs.Refusals.{refusal_number, refusal_values};

use crate::numbers::{ByteNumber, RowNumber, WireNumber};

// The refusals, in the order of their numbers.
#[derive(Clone, Copy, Debug, PartialEq, Eq)]
pub enum Refusal {
    // 2: the record length is above 8,127 bits.
    LengthOutOfRange,
    // 3: the row number is not below the row count.
    RowOutOfRange,
    // 4: the buffer to be written is shorter than its result.
    BufferTooShort,
    // 5: the digest is not 32 bytes.
    DigestNot32,
    // 6: the assignment is not 8 bytes a wire.
    WrongLength,
    // 7: wire 0 does not read as 1.
    WireZero,
    // 8: a digest wire does not read as its bit of the digest.
    DigestWire,
    // 9: the lowest row that is not satisfied.
    Unsatisfied(RowNumber),
    // 10: the lowest wire that reads neither 0 nor 1.
    EntryNotBit(WireNumber),
    // 11: the packed bytes are not the wires over 8 rounded up.
    WrongPackedLength,
    // 12: a spare bit is set.
    SpareBit,
    // 13: the record's bytes are not its bits over 8 rounded up.
    WrongRecordLength,
    // 14: a bit after the last record bit is set.
    BitAfterRecord,
    // 15: a passage line is not 63 bytes.
    LineNot63,
    // 16: the lowest byte of a passage line that its place does not allow.
    WrongByte(ByteNumber),
    // 17: lane 0 or fewer than 2 axles.
    LaneOrAxlesTooLow,
    // 18: a bound on axles outside 2 to 99, or the lower above the upper.
    BoundsOutOfRange,
    // 19: the record's axles are no digits or lie outside the bounds.
    NotInBand,
    // 20: the lowest wire whose entry is p or more.
    EntryNotBelowPrime(WireNumber),
    // 21: the caller's limit is outside 1 to 16 blocks.
    LimitOutOfRange,
    // 22: the record length needs more blocks than the caller's limit.
    BlocksAboveLimit,
}

impl Refusal {
    // The paper's number of a refusal, a byte.
    pub fn number(self) -> u64
        ensures { (result ≡ refusal_number self) × (result < 256) }
    {
        match self {
            Refusal::LengthOutOfRange => 2,
            Refusal::RowOutOfRange => 3,
            Refusal::BufferTooShort => 4,
            Refusal::DigestNot32 => 5,
            Refusal::WrongLength => 6,
            Refusal::WireZero => 7,
            Refusal::DigestWire => 8,
            Refusal::Unsatisfied(_) => 9,
            Refusal::EntryNotBit(_) => 10,
            Refusal::WrongPackedLength => 11,
            Refusal::SpareBit => 12,
            Refusal::WrongRecordLength => 13,
            Refusal::BitAfterRecord => 14,
            Refusal::LineNot63 => 15,
            Refusal::WrongByte(_) => 16,
            Refusal::LaneOrAxlesTooLow => 17,
            Refusal::BoundsOutOfRange => 18,
            Refusal::NotInBand => 19,
            Refusal::EntryNotBelowPrime(_) => 20,
            Refusal::LimitOutOfRange => 21,
            Refusal::BlocksAboveLimit => 22,
        }
    }

    // The row, the wire or the byte that a refusal names, 0 where it names none.
    pub fn value(self) -> u64
        ensures { result ≡ above (refusal_values self) }
    {
        match self {
            Refusal::Unsatisfied(row) => row.0,
            Refusal::EntryNotBit(wire) | Refusal::EntryNotBelowPrime(wire) => wire.0,
            Refusal::WrongByte(byte) => byte.0,
            _ => 0,
        }
    }
}
