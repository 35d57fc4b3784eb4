// A play on a small store in memory: puts, takings out, power cuts and looks, with numbers for keys and sealing that hides nothing.
#![tactic(auto)]

mod apart;
pub mod deed;
pub mod play;
mod replay;
pub mod verdicts;
