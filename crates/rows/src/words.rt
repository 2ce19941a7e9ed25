ghost use Rattle.std.specs.Prelude.{◌≡◌, ◌<◌, slice_index};
ghost use Rattle.rows.specs.Ours.{bit, with_bit};

// Word i of a run, and 0 past its end.
pub fn word_at(run: &[u32], i: usize) -> u32
    ensures { result ≡ slice_index run.now i }
{
    run.get(i).copied().unwrap_or(0)
}

// Bit j of a word, bit 0 the lowest.
pub fn bit_of(word: u32, j: u16) -> u32
    requires { j < 32 }
    ensures { result ≡ bit word j }
{
    (word >> j) & 1
}

// The word with v for its bit j.
pub fn put_bit(word: u32, j: u16, v: u32) -> u32
    requires inside { j < 32 }
    requires small { v < 2 }
    ensures { result ≡ with_bit word j v }
{
    (word & !(1 << j)) | (v << j)
}
