// The words that C is given for each answer, and the times that it lends.
#![tactic(auto)]

pub mod answers;
pub mod compared;
pub mod hired;
pub mod reached;
pub mod times;
