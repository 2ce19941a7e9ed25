ghost use Rattle.std.specs.Prelude.{◌≡◌, ℕ, ◌+◌, List, take};
ghost use Rattle.std.specs.Option.{option_map};
ghost use Rattle.planner.specs.Called.{child_roots};
ghost use Rattle.planner.specs.Calls as calls;
ghost use Rattle.lines.specs.Parse as parses;

use crate::text::decode;
use encodings::fields::Fields;
use planner::call::{Call, Parts, RowBytes};
use rows::kinds::RowKinds;
use rows::row::MAX_ROWS;

// The rows of a making, with no bytes where kind or length is out of range.
fn rows_in_range<'a, K: RowKinds>(kinds: &K, rows: RowBytes<'a>) -> RowBytes<'a>
    ensures kind { result.kind ≡ rows.entry.kind }
    ensures len { result.len ≡ rows.entry.len }
    ensures bytes { result.bytes.now ≡ parses.rows_of (K.RowKinds.kinds kinds.now) rows.entry.kind rows.entry.len rows.entry.bytes.now }
{
    if rows.is_in_range(kinds) {
        rows
    } else {
        RowBytes { bytes: &[], ..rows }
    }
}

// The parts of an array, with no roots where it has more slots than a node has room for.
fn roots_in_room<'a>(parts: Parts<'a>) -> Parts<'a>
    ensures fields { result.fields ≡ parts.entry.fields }
    ensures roots { result.roots.now ≡ child_roots parts.entry.fields parts.entry.roots.now }
{
    if parts.has_room() {
        parts
    } else {
        Parts {
            roots: &[],
            ..parts
        }
    }
}

// The call that bytes stand for, if any: its code, then its fields, then the rest. The codes of calls stand here alone.
#[tactic(auto, using(crate::proofs::Alone::from_one_text))]
pub fn parse<'a, K: RowKinds>(kinds: &K, bytes: &'a [u8]) -> Option<Call<'a>>
    ensures call { option_map calls.told result ≡ parses.parsed (K.RowKinds.kinds kinds.now) bytes.now }
    ensures alone { parses.FromOneText (K.RowKinds.kinds kinds.now) }
{
    match bytes {
        &[0x01, root, kind, l1, l0, ref bytes @ ..] => {
            let len = u16::from_be_bytes([l1, l0]);
            let rows = rows_in_range(kinds, RowBytes { kind, len, bytes });
            Some(Call::Make { root, rows })
        }
        &[
            0x02,
            root,
            encoding,
            kind,
            l1,
            l0,
            p3,
            p2,
            p1,
            p0,
            arity,
            ref roots @ ..,
        ] => {
            let fields = Fields {
                encoding,
                kind,
                len: u16::from_be_bytes([l1, l0]),
                parameter: u32::from_be_bytes([p3, p2, p1, p0]),
                arity,
            };
            let parts = roots_in_room(Parts { fields, roots });
            Some(Call::Assemble { root, parts })
        }
        &[0x03, to, from] => Some(Call::Share { to, from }),
        &[0x04, root] => Some(Call::Release { root }),
        &[0x09, root] => Some(Call::Read { root }),
        _ => None,
    }
}

// The digits of the longest call. A text that is cut one digit past them asks the same as the whole.
#[tactic(auto, using(crate::proofs::Keeping::cut_asks))]
pub fn longest<K: RowKinds>(kinds: &K) -> usize
    ensures value { result ≡ parses.longest (K.RowKinds.kinds kinds.now) }
    ensures cut { (line : List ℕ) → parses.asked (K.RowKinds.kinds kinds.now) (take (result + 1) line) ≡ parses.asked (K.RowKinds.kinds kinds.now) line }
{
    2 * (5 + usize::from(MAX_ROWS) * usize::from(kinds.widest()))
}

// The call that a line of digits stands for, if any. The line is decoded in place.
#[tactic(auto, using(crate::proofs::Keeping::asked_is))]
pub fn read_line<'a, K: RowKinds>(kinds: &K, line: &'a mut [u8]) -> Option<Call<'a>>
    ensures { option_map calls.told result ≡ parses.asked (K.RowKinds.kinds kinds.now) line.old }
{
    if line.len() > longest(kinds) {
        return None;
    }
    let n = decode(line)?;
    parse(kinds, &line[..n])
}
