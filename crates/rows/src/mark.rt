ghost use Rattle.rows.specs.Ours.{mark};
ghost use Rattle.rows.specs.Marks.{mark_lawful};

use crate::kind::RowKind;
use crate::row::Row;
use crate::words::{bit_of, put_bit, word_at};

// A mark, 0 or 1: row k is bit k mod 32 of word k div 32, the lowest bit first, as in an Arrow bitmap.
#[derive(Clone, Copy)]
pub struct Mark;

impl RowKind for Mark {
    ghost means = { λ _. mark };

    ghost lawful = { λ s. mark_lawful };

    fn takes(&self, row: Row) -> bool {
        row.value < 2
    }

    fn constant(&self, parameter: u32) -> Row {
        // a parameter above 1 gives a row that the kind does not take
        Row { value: parameter }
    }

    fn words(&self, n: u16) -> u16 {
        n.div_ceil(32)
    }

    fn read(&self, run: &[u32], _n: u16, k: u16) -> Row {
        let word = word_at(run, usize::from(k) / 32);
        Row {
            value: bit_of(word, k % 32),
        }
    }

    fn write(&self, run: &mut [u32], _n: u16, k: u16, row: Row) {
        let i = usize::from(k) / 32;
        run[i] = put_bit(run[i], k % 32, row.value);
    }

    fn width(&self) -> u8 {
        1
    }

    fn parse(&self, bytes: &[u8]) -> Option<Row> {
        match bytes {
            &[b] if b < 2 => Some(Row {
                value: u32::from(b),
            }),
            _ => None,
        }
    }

    fn byte(&self, row: Row, j: u8) -> u8 {
        // the cast loses nothing, as the check shows: a mark is below 2
        if j == 0 { row.value as u8 } else { 0 }
    }
}
