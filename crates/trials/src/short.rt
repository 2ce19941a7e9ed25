ghost use Rattle.std.specs.Prelude.{◌&&◌, ◌==◌, nat_le};

use encodings::matcher::{Head, Matcher};

// Takes the arrays of at most so many rows that have one parameter.
#[derive(Clone, Copy)]
pub struct Short {
    pub len: u16,
    pub parameter: u32,
}

impl Matcher for Short {
    ghost takes = { λ s head. nat_le head.len s.len && head.parameter == s.parameter };

    fn matches(&self, head: Head) -> bool {
        head.len <= self.len && head.parameter == self.parameter
    }
}
