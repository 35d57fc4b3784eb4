// One interface for the ways of sealing, so that what is above is proved once for all of them.
#![tactic(auto)]

pub mod nonce;
pub mod sealing_trait;
pub mod standard;
pub mod transparent;
