// A step (document 01's turn): the messages of a batch, the batch, the visits of the groups.
//
// Read on in this order: `output` (the messages), `handle` (one batch), `visit` (the groups), `stepping`.
// The contracts cite specs/Output.antt (what is reached while the output is written).
#![tactic(auto)]

mod handle;
mod output;
mod stepping;
mod visit;

pub use stepping::{LentStep, Stepped, step, step_lent};
