// One group's pending requests (document 02's shelf of a group), lent as rows of four words: the row of a
// request, and the way of a replica's places into rows and back.
//
// Read on in this order: `row` (one request), `places` (those of a replica). The contracts cite
// specs/Row.antt and specs/Queue.antt, and crates/state for the places.
#![tactic(auto)]

mod places;
mod row;

pub use places::{count_of, places_of, rows_of, set_count};
pub use row::{pending_count, pending_of, row_of};
