ghost use Rattle.std.specs.Prelude.{◌≡◌, ◌<◌, ◌≤◌, true, length, slice_index};
ghost use Rattle.rows.specs.Kind.{Kind, LawfulKind};

use crate::row::Row;

// A row kind: a list of rows held in a run of words. It says which rows it takes, which row the parameter of a
// constant array stands for, how many words n rows need, reads row k of n, and writes it and no other; and how a row
// stands in a line. A run and the number of its rows stay two parameters: a struct of both would be written twice, for
// `&` and for `&mut`, and could not say that the kind asks for so many words. What a member requires, its callers
// require again: a type that said it would be narrower than a u16 or a Row, and depend on the kind.
pub trait RowKind {
    ghost means: { Self → Kind };

    // Whether the kind takes the row.
    fn takes(&self, row: Row) -> bool
        ensures { result ≡ (means self.now).takes row };

    // The row that the parameter of a constant array stands for. The kind need not take it.
    fn constant(&self, parameter: u32) -> Row
        ensures { result ≡ (means self.now).constant parameter };

    // The words that n rows need.
    fn words(&self, n: u16) -> u16
        requires { n ≤ 1024 }
        ensures { result ≡ (means self.now).words n };

    // Row k of the n rows in a run. What lies past the run reads as words of 0.
    fn read(&self, run: &[u32], n: u16, k: u16) -> Row
        ensures { result ≡ (means self.now).row n run.now k };

    // Writes row k of the n rows in a run.
    fn write(&self, run: &mut [u32], n: u16, k: u16, row: Row)
        requires whole { length run.old ≡ (means self.now).words n }
        requires inside { k < n }
        requires taken { (means self.now).takes row ≡ true }
        ensures { run.new ≡ (means self.now).put n run.old k row };

    // The bytes of a row in a line.
    fn width(&self) -> u8
        ensures { result ≡ (means self.now).width };

    // The row that the bytes stand for, if they stand for one.
    fn parse(&self, bytes: &[u8]) -> Option<Row>
        ensures { result ≡ (means self.now).parsed bytes.now };

    // Byte j of those that stand for a row.
    fn byte(&self, row: Row, j: u8) -> u8
        requires { (means self.now).takes row ≡ true }
        ensures { result ≡ slice_index ((means self.now).written row) j };

    ghost lawful: { (s : Self) → LawfulKind (means s) };
}
