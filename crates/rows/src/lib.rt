#![tactic(auto)]

pub mod append;
pub mod kind;
pub mod kinds;
pub mod mark;
pub mod number;
pub mod row;
pub mod words;
