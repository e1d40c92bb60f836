// The delivery of a request to a replica.
#![tactic(auto)]

mod delivery;

pub use delivery::{Delivered, admit, deliver};
