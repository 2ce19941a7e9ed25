#![tactic(auto)]

pub mod encoding;
pub mod fields;
pub mod flatten;
pub mod matcher;
pub mod step;
