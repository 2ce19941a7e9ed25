#![tactic(auto)]

pub mod chunked;
pub mod constant;
pub mod dict;
pub mod flat;
pub mod pair;
pub mod run_end;
pub mod six;
pub mod slice;
