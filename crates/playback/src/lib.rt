// The playing of a journal in blocks: what its records (crates/entry) do to the replicas of a unit, and
// the lines (crates/lines) that are printed. What a whole journal prints, and what a call does, stands in
// crates/transcript; the program that reads and writes is crates/journal.
//
// Read on in this order: `stage` (how far it has come), `number` (of a replica), `unit` (the replicas, lent
// side by side), `play` (one record), `block` (a block of them), `end`, `left` (the bytes between two
// blocks). specs/Arrays.antt has the unit that the arrays stand for, specs/Calls.antt what a call promises.
#![tactic(auto)]

mod block;
mod end;
mod left;
mod number;
mod play;
mod stage;
mod unit;

pub use block::{Block, play_block};
pub use end::play_end;
pub use left::keep_left;
pub use stage::Stage;
pub use unit::Replicas;
