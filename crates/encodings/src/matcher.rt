// SPDX-License-Identifier: Apache-2.0
// SPDX-FileCopyrightText: Copyright the Vortex contributors
// Changed: ported from Rust to Rattle, over node fields in place of array references.

ghost use Rattle.std.specs.Prelude.{◌≡◌, Bool, true, ◌==◌};
ghost use Rattle.encodings.specs.declared.matcher.Head.{Head};

use pool::node::FLAT;

// What a matcher sees of an array, with the numbers that a node has. A node has more, which no matcher may depend on.
#[derive(Clone, Copy)]
pub struct Head {
    pub encoding: u8,
    pub kind: u8,
    pub len: u16,
    pub parameter: u32,
}

impl Head {
    // Whether the array is Flat.
    pub fn is_flat(&self) -> bool
        ensures { result ≡ (self.now.encoding == 1) }
    {
        self.encoding == FLAT
    }
}

// Says yes or no to an array, from its encoding, kind, length and parameter alone.
pub trait Matcher {
    ghost takes: { Self → Head → Bool };

    fn matches(&self, head: Head) -> bool
        ensures { result ≡ takes self.now head };
}

// Takes every array.
#[derive(Clone, Copy)]
pub struct AnyArray;

impl Matcher for AnyArray {
    ghost takes = { λ _ head. true };

    fn matches(&self, _head: Head) -> bool {
        true
    }
}

// Takes the arrays in canonical form, which are the Flat ones. `Flat` is no other name for it: the Rust has both, and
// they part where there are more canonical encodings.
#[derive(Clone, Copy)]
pub struct AnyCanonical;

impl Matcher for AnyCanonical {
    ghost takes = { λ _ head. (head.encoding == 1) };

    fn matches(&self, head: Head) -> bool {
        head.is_flat()
    }
}
