ghost use Rattle.std.specs.Prelude.{◌≡◌};
ghost use Rattle.std.specs.Borrow.{sem, Array, u8 as byte, follows};
ghost use Rattle.std.specs.Vec.{with_items};
ghost use Rattle.lines.specs.contracts.buffer.LineBuffer.{the_row};

use super::LineBuffer;

impl LineBuffer {
    // The bytes that are kept, to be decoded in place.
    pub fn line(&mut self) -> &mut [u8]
        ensures value { result.now ≡ self.old.bytes.items }
        ensures* follows { sem 𝓛 (follows the_row (Array byte 0) self.entry.ghost_name result.ghost_name (λ w. record { bytes = with_items self.old.bytes w; limit = self.old.limit; room = self.old.room; short = self.old.short })) }
    {
        self.bytes.as_mut_slice()
    }
}
