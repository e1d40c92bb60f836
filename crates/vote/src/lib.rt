// What a process makes of the messages that it received: the vote on a read, and the halt count.
// The contracts cite crates/rules, specs/Vote.antt.
#![tactic(auto)]

mod tally;

pub use tally::{LIST_PLACES, count_halts, count_halts_in, vote, vote_in};
