use crate::planner::Planner;
use arrays::six::{Six, six};
use encodings::matcher::AnyCanonical;
use optimizer::EmptyBank;
use rows::kinds::BaseKinds;

// What a planner works with: a set of row kinds, a set of encodings, a bank of rules and kernels, and a matcher.
#[derive(Clone, Copy)]
pub struct Session<K, E, B, M> {
    pub kinds: K,
    pub encodings: E,
    pub bank: B,
    pub matcher: M,
}

impl Session<BaseKinds, Six, EmptyBank, AnyCanonical> {
    // What the programs work with.
    pub fn base() -> Session<BaseKinds, Six, EmptyBank, AnyCanonical> {
        Session {
            kinds: BaseKinds,
            encodings: six(),
            bank: EmptyBank,
            matcher: AnyCanonical,
        }
    }
}

// A planner of the programs.
pub type BasePlanner<'a> = Planner<'a, BaseKinds, Six, EmptyBank, AnyCanonical>;
