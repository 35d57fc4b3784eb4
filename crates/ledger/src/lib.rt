// The bookkeeping of a play on a small store: what was put where, what somebody saw, and what can be opened by that.
#![tactic(auto)]

pub mod answer;
pub mod book;
pub mod ledger;
pub mod moves;
