#![tactic(auto)]

pub mod builder;
pub mod finding;
pub mod insert;
pub mod node;
pub mod pool;
pub mod seen;
pub mod sharing;
pub mod slots;
