// One row of an array: the value that a point of the strip has.
#[derive(Clone, Copy, PartialEq, Eq, Debug)]
pub struct Row {
    pub value: u32,
}

// The most rows that an array has.
pub const MAX_ROWS: u16 = 1024;
