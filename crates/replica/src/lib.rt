// The replica (document 01's storage card) as code: make, deliver, step, handed on from where they
// stand. Each does what crates/rules says of the state that the struct stands for, for any value of any
// parameter.
//
// Read on in this order: crates/state (the struct, and make), crates/queue (one group's pending
// requests), crates/batch (those with the least timestamp), crates/delivery, crates/step. What runs of
// these calls amount to: crates/unit.
#![tactic(auto)]

pub use delivery::{Delivered, deliver};
pub use state::{Replica, make};
pub use step::{Stepped, step};
