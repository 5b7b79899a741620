// The build rule: what storing an interval does to the record, and the writing of nodes that follows from it.
#![tactic(auto)]

pub mod moves; // moves.rt: close, raise, make, store: record and node bytes change together
mod carry; // carry.rt: a plan carried out, with the node bytes or on the record alone
pub mod write; // write.rt: an interval stored; opening; closing all
pub mod trial; // trial.rt: an interval tried on the record alone
