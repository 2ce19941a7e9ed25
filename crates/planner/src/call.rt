ghost use Rattle.std.specs.Prelude.{◌≡◌};
ghost use Rattle.planner.specs.declared.call.Refusal.TheVariants.{Pool};

use encodings::fields::Fields;
use pool::node::PoolFault;

// The rows of a making: their kind, by number as in a node, how many they are, and the bytes of a line that stand for
// them. There are none of these where kind or length is out of range.
#[derive(Clone, Copy)]
pub struct RowBytes<'a> {
    pub kind: u8,
    pub len: u16,
    pub bytes: &'a [u8],
}

// What an array is made of: its fields, and the roots of its children. There are none of these where it has more than
// eight slots.
#[derive(Clone, Copy)]
pub struct Parts<'a> {
    pub fields: Fields,
    pub roots: &'a [u8],
}

// One call, with its numbers as they came. They may be out of range, so that refusing them is an answer like others.
#[derive(Clone, Copy)]
pub enum Call<'a> {
    // a Flat array of these rows under a root
    Make { root: u8, rows: RowBytes<'a> },
    // an array of these parts under a root, with the arrays under the roots that it names for its children
    Assemble { root: u8, parts: Parts<'a> },
    // the array under `from` under the root `to` too
    Share { to: u8, from: u8 },
    // the root empty
    Release { root: u8 },
    // the rows under a root
    Read { root: u8 },
}

// Why a call is refused.
#[derive(Clone, Copy, PartialEq, Eq, Debug)]
pub enum Refusal {
    Line,
    RootRange,
    RootEmpty,
    RootTaken,
    Field,
    Slots,
    Pool(PoolFault),
    NotFlat,
}

// By hand, since no derive says which variant `?` makes.
impl From<PoolFault> for Refusal {
    ghost from_gives = { λ p r. r ≡ Pool p };

    fn from(fault: PoolFault) -> Refusal {
        Refusal::Pool(fault)
    }
}

// What a call that only reads hands out, with the kind by number as in a node: the run of words of a Flat array, as it
// lies in the pool from `place` on.
#[derive(Clone, Copy)]
pub struct Reading<'a> {
    pub kind: u8,
    pub len: u16,
    pub place: u16,
    pub words: &'a [u32],
}

// What a call that is accepted gives. No Option, since its None would not say that the call was done.
#[derive(Clone, Copy)]
pub enum Reply<'a> {
    Done,
    Rows(Reading<'a>),
}

// What a call is answered.
pub type Answer<'a> = Result<Reply<'a>, Refusal>;
