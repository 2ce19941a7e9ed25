use arrays::chunked::CHUNKED;
use arrays::constant::CONSTANT;
use arrays::dict::DICT;
use arrays::run_end::RUN_END;
use arrays::slice::SLICE;
use encodings::fields::Fields;
use planner::call::{Call, Parts, RowBytes};
use pool::node::SLOTS;
use rows::kinds::{MARK, NUMBER};
use std::alloc::{AllocError, Global};

// The number of points of the strip.
const POINTS: u16 = 8;

// Whether there is a flaw at each point of the front.
const FLAW_MARKS: [u8; POINTS as usize] = [0, 0, 0, 1, 1, 0, 0, 0];

// The roots under which arrays are laid: the flaws of front and back, the parts that the thickness is made of, and the
// thickness.
pub const FLAWS: u8 = 0;

const BACK: u8 = 1;

const ENDS: u8 = 2;

const VALUES: u8 = 3;

const RUNS: u8 = 4;

const CODES: u8 = 5;

const DICTIONARY: u8 = 6;

const MIDDLE: u8 = 7;

pub const THICKNESS: u8 = 8;

// A call, and what it is called.
#[derive(Clone, Copy)]
pub struct Laid<'a> {
    pub what: &'a str,
    pub call: Call<'a>,
}

// The calls that release the parts of the thickness.
pub fn releasing_parts() -> [Laid<'static>; 6] {
    [
        release("release the ends", ENDS),
        release("release the values", VALUES),
        release("release the runs", RUNS),
        release("release the codes", CODES),
        release("release the dictionary", DICTIONARY),
        release("release the slice", MIDDLE),
    ]
}

// The calls that release what is left then; the first has nothing to release any more.
pub fn releasing_all() -> [Laid<'static>; 4] {
    [
        release("release the ends again", ENDS),
        release("release the thickness", THICKNESS),
        release("release the flaws of the front", FLAWS),
        release("release the flaws of the back", BACK),
    ]
}

fn release(what: &'static str, root: u8) -> Laid<'static> {
    Laid {
        what,
        call: Call::Release { root },
    }
}

// Numbers as the bytes of a making, the high byte of each first.
fn number_bytes(heap: Global, rows: &[u32]) -> Result<Vec<u8>, AllocError> {
    rows.iter().flat_map(|row| row.to_be_bytes()).collect(heap)
}

// The thickness, in hundredths of a millimetre: the bytes of the numbers that its parts have for rows.
#[derive(Drop)]
pub struct Thickness {
    ends: Vec<u8>,
    values: Vec<u8>,
    codes: Vec<u8>,
}

impl Thickness {
    // Runs up to rows 3, 5 and 8 of 212, 195 and 170; and codes of the same values.
    pub fn new(heap: Global) -> Result<Thickness, AllocError> {
        Ok(Thickness {
            ends: number_bytes(heap, &[3, 5, 8])?,
            values: number_bytes(heap, &[212, 195, 170])?,
            codes: number_bytes(heap, &[0, 1, 1, 2])?,
        })
    }

    // The calls that lay the strip: four points of the runs from row 2 on, and then four of the dictionary.
    pub fn making(&self) -> [Laid<'_>; 9] {
        [
            rows(
                "make the flaws of the front",
                FLAWS,
                MARK,
                POINTS,
                &FLAW_MARKS,
            ),
            array(
                "make the flaws of the back, a constant",
                BACK,
                (CONSTANT, MARK, POINTS, 0),
                &[],
            ),
            rows("make the ends", ENDS, NUMBER, 3, &self.ends),
            rows("make the values", VALUES, NUMBER, 3, &self.values),
            array(
                "make the runs",
                RUNS,
                (RUN_END, NUMBER, POINTS, 0),
                &[ENDS, VALUES],
            ),
            rows("make the codes", CODES, NUMBER, 4, &self.codes),
            array(
                "make the dictionary",
                DICTIONARY,
                (DICT, NUMBER, 4, 0),
                &[CODES, VALUES],
            ),
            array(
                "make the slice of the runs",
                MIDDLE,
                (SLICE, NUMBER, 4, 2),
                &[RUNS],
            ),
            array(
                "make the thickness",
                THICKNESS,
                (CHUNKED, NUMBER, POINTS, 0),
                &[MIDDLE, DICTIONARY],
            ),
        ]
    }
}

// The making of a Flat array.
fn rows<'a>(what: &'a str, root: u8, kind: u8, len: u16, bytes: &'a [u8]) -> Laid<'a> {
    let rows = RowBytes { kind, len, bytes };
    Laid {
        what,
        call: Call::Make { root, rows },
    }
}

// The making of an array from others: by encoding, kind, length and parameter.
fn array<'a>(
    what: &'a str,
    root: u8,
    (encoding, kind, len, parameter): (u8, u8, u16, u32),
    roots: &'a [u8],
) -> Laid<'a> {
    let fields = Fields {
        encoding,
        kind,
        len,
        parameter,
        arity: roots.len().min(SLOTS) as u8,
    };
    Laid {
        what,
        call: Call::Assemble {
            root,
            parts: Parts { fields, roots },
        },
    }
}
