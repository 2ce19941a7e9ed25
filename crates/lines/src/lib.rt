#![tactic(auto)]

pub mod buffer;
pub mod parse;
pub mod respond;
pub mod text;
pub mod write;
