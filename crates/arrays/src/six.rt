ghost use Rattle.std.specs.Prelude.{refl};
ghost use Rattle.encodings.specs.Pinned.{Has, FlatRows, Staying, ConstantRows, Flattening, RunEndRows, DictRows, ChunkedRows, ChunkedRest, Chunking, SliceRows};

use crate::chunked::Chunked;
use crate::constant::Constant;
use crate::dict::Dict;
use crate::flat::Flat;
use crate::pair::Pair;
use crate::run_end::RunEnd;
use crate::slice::Slice;
use encodings::encoding::{Beside, Encoding};

// The six encodings as one set.
pub type Six = Pair<Flat, Pair<Constant, Pair<RunEnd, Pair<Dict, Pair<Chunked, Slice>>>>>;

// The set of the six. What each of them is stands in the clauses, of its own meaning and steps: its rows, and what its
// step needs and answers. And the set has them with these meanings.
pub fn six() -> Six
    ensures flat { FlatRows (⟦<Flat as Encoding>⟧.means result.first) × Staying (⟦<Flat as Encoding>⟧.steps result.first) }
    ensures constant { ConstantRows (⟦<Constant as Encoding>⟧.means result.second.first) × Flattening (⟦<Constant as Encoding>⟧.means result.second.first) (⟦<Constant as Encoding>⟧.steps result.second.first) }
    ensures run_end { RunEndRows (⟦<RunEnd as Encoding>⟧.means result.second.second.first) × Flattening (⟦<RunEnd as Encoding>⟧.means result.second.second.first) (⟦<RunEnd as Encoding>⟧.steps result.second.second.first) }
    ensures dict { DictRows (⟦<Dict as Encoding>⟧.means result.second.second.second.first) × Flattening (⟦<Dict as Encoding>⟧.means result.second.second.second.first) (⟦<Dict as Encoding>⟧.steps result.second.second.second.first) }
    ensures chunked { ChunkedRows (⟦<Chunked as Encoding>⟧.means result.second.second.second.second.first) × (ChunkedRest (⟦<Chunked as Encoding>⟧.means result.second.second.second.second.first) × Chunking (⟦<Chunked as Encoding>⟧.means result.second.second.second.second.first) (⟦<Chunked as Encoding>⟧.steps result.second.second.second.second.first)) }
    ensures slice { SliceRows (⟦<Slice as Encoding>⟧.means result.second.second.second.second.second) × Flattening (⟦<Slice as Encoding>⟧.means result.second.second.second.second.second) (⟦<Slice as Encoding>⟧.steps result.second.second.second.second.second) }
    ensures has_flat { Has (⟦<Flat as Encoding>⟧.means result.first) (⟦<Six as Encoding>⟧.means result) }
    ensures has_constant { Has (⟦<Constant as Encoding>⟧.means result.second.first) (⟦<Six as Encoding>⟧.means result) }
    ensures has_run_end { Has (⟦<RunEnd as Encoding>⟧.means result.second.second.first) (⟦<Six as Encoding>⟧.means result) }
    ensures has_dict { Has (⟦<Dict as Encoding>⟧.means result.second.second.second.first) (⟦<Six as Encoding>⟧.means result) }
    ensures has_chunked { Has (⟦<Chunked as Encoding>⟧.means result.second.second.second.second.first) (⟦<Six as Encoding>⟧.means result) }
    ensures has_slice { Has (⟦<Slice as Encoding>⟧.means result.second.second.second.second.second) (⟦<Six as Encoding>⟧.means result) }
{
    Pair {
        first: Flat,
        second: Pair {
            first: Constant,
            second: Pair {
                first: RunEnd,
                second: Pair {
                    first: Dict,
                    second: Pair {
                        first: Chunked,
                        second: Slice,
                    },
                },
            },
        },
    }
}

impl Beside<Slice> for Chunked {
    ghost disjoint = { refl };
}

impl Beside<Pair<Chunked, Slice>> for Dict {
    ghost disjoint = { refl };
}

impl Beside<Pair<Dict, Pair<Chunked, Slice>>> for RunEnd {
    ghost disjoint = { refl };
}

impl Beside<Pair<RunEnd, Pair<Dict, Pair<Chunked, Slice>>>> for Constant {
    ghost disjoint = { refl };
}

impl Beside<Pair<Constant, Pair<RunEnd, Pair<Dict, Pair<Chunked, Slice>>>>> for Flat {
    ghost disjoint = { refl };
}
