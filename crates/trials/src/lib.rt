#![tactic(auto)]

#[cfg(test)]
mod calls;
pub mod fill;
#[cfg(test)]
mod making;
#[cfg(test)]
mod pools;
#[cfg(test)]
mod seven;
pub mod short;
pub mod stack;
pub mod steps;
#[cfg(test)]
mod tests;
pub mod wide;
