// The batch of a queue: finding it, what it is, taking it off.
//
// Read on in this order: `pending` (the head of a queue, and its batch), `unanimity` (all reads, or a
// unanimous write). The contracts cite specs/Head.antt; that the head found is the rules':
// proofs/Stable.antt.
#![tactic(auto)]

mod pending;
mod unanimity;

pub use pending::{Batch, Head, in_batch, stable_head, take_off};
pub use unanimity::{all_reads, first_of, is_unanimous};
