// The replica's struct (document 01's storage card), and a replica from new.
//
// Read on in this order: `state` (the struct), `making`. The contracts cite specs/State.antt (the state
// of the rules that the struct stands for) and specs/Made.antt (what is made).
#![tactic(auto)]

mod making;
mod state;

pub use making::make;
pub use state::Replica;
