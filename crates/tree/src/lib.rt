// The tree over the places, by node numbers; and what calls answer.
#![tactic(auto)]

pub mod answer;
pub mod leaf;
pub mod node;
pub mod numbers;
