// The 24 bytes of a record: nine fields, big-endian, and the two clocks.
//
// Read on in this order: `clock`, `number`, `fields`. What the contracts cite stands in specs/.
#![tactic(auto)]

mod clock;
mod fields;
mod number;

pub use clock::{LocalTime, Timestamp};
pub use fields::Fields;
pub use number::number8;
