// Where the fields of a line stand. A comma stands behind each but the last.

// A field, or some other places of a line: the first of them, from 0, and how many there are.
#[derive(Clone, Copy, Debug, PartialEq, Eq)]
pub struct Field {
    pub first: usize,
    pub many: usize,
}

pub const LANE: Field = Field { first: 0, many: 3 };

pub const TIME: Field = Field { first: 4, many: 10 };

pub const CLASS: Field = Field { first: 15, many: 1 };

pub const AXLES: Field = Field { first: 17, many: 2 };

pub const PLATE: Field = Field {
    first: 20,
    many: 10,
};

pub const BLIND: Field = Field {
    first: 31,
    many: 32,
};

// The comma behind the plate.
pub const LAST_COMMA: Field = Field { first: 30, many: 1 };

// The bytes of a line.
pub const LINE_LENGTH: usize = 63;
