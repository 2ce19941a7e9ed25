#![tactic(auto)]

pub mod answer;
pub mod assemble;
pub mod call;
pub mod listener;
pub mod make;
pub mod new;
pub mod planner;
pub mod read;
pub mod replay;
pub mod roots;
pub mod session;
pub mod tally;
