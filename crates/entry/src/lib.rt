// What a 40-byte record of the journal means: the setup that comes first, then deliveries and turns.
#![tactic(auto)]

mod entry;

pub use entry::{EntryRead, read_entry, read_setup};
