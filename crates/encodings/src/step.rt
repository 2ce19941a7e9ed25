// SPDX-License-Identifier: Apache-2.0
// SPDX-FileCopyrightText: Copyright the Vortex contributors
// Changed: ported from Rust to Rattle; arrays are node numbers, and a matcher is told by a code.

ghost use Rattle.std.specs.Prelude.{◌≡◌};
ghost use Rattle.encodings.specs.declared.step.StepFault.TheVariants.{Pool};

use pool::node::PoolFault;

// The codes of matchers: of AnyArray and of AnyCanonical; that of an encoding is BY_ENCODING and its id together.
pub const ANY_ARRAY: u8 = 0x00;

pub const ANY_CANONICAL: u8 = 0x01;

pub const BY_ENCODING: u8 = 0x10;

// What one step of an array asks for, or gives.
#[derive(Clone, Copy, PartialEq, Eq, Debug)]
pub enum ExecutionStep {
    // the child in the slot is to be executed, until it is Flat or the matcher with the code takes it
    ExecuteSlot { slot: u8, target: u8 },
    // the child in the slot is Flat, and its rows are the next
    AppendChild { slot: u8 },
    // the array is done, and this one takes its place
    Done { array: u8 },
}

// Why a step is refused.
#[derive(Clone, Copy, PartialEq, Eq, Debug)]
pub enum StepFault {
    Pool(PoolFault),
    // the array has no rows
    NoRows,
}

// By hand, since no derive says which variant `?` makes.
impl From<PoolFault> for StepFault {
    ghost from_gives = { λ p r. r ≡ Pool p };

    fn from(fault: PoolFault) -> StepFault {
        StepFault::Pool(fault)
    }
}
