// The ballot: what a process heard so far of each replica, and what that says. A vote and a halt
// count are a ballot over a list; crates/vote walks the list.
#![tactic(auto)]

mod ballot;
mod count;
mod sets;

pub use ballot::Ballot;
