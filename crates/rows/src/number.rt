ghost use Rattle.rows.specs.Ours.{number};
ghost use Rattle.rows.specs.Numbers.{number_lawful};

use crate::kind::RowKind;
use crate::row::Row;
use crate::words::word_at;

// A number: a word a row, and four bytes in a line, the high one first.
#[derive(Clone, Copy)]
pub struct Number;

impl RowKind for Number {
    ghost means = { λ _. number };

    ghost lawful = { λ s. number_lawful };

    fn takes(&self, _row: Row) -> bool {
        true
    }

    fn constant(&self, parameter: u32) -> Row {
        Row { value: parameter }
    }

    fn words(&self, n: u16) -> u16 {
        n
    }

    fn read(&self, run: &[u32], _n: u16, k: u16) -> Row {
        Row {
            value: word_at(run, usize::from(k)),
        }
    }

    fn write(&self, run: &mut [u32], _n: u16, k: u16, row: Row) {
        run[usize::from(k)] = row.value;
    }

    fn width(&self) -> u8 {
        4
    }

    fn parse(&self, bytes: &[u8]) -> Option<Row> {
        match bytes {
            &[a, b, c, d] => Some(Row {
                value: u32::from_be_bytes([a, b, c, d]),
            }),
            _ => None,
        }
    }

    fn byte(&self, row: Row, j: u8) -> u8 {
        row.value
            .to_be_bytes()
            .get(usize::from(j))
            .copied()
            .unwrap_or(0)
    }
}
