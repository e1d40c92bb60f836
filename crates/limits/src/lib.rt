// Document 01's sizes and limits, each said once. The definitions take the same numbers from
// specs/Limits.antt.
#![tactic(auto)]

ghost use Rattle.std.specs.Prelude.{min, ◌≡◌};

// k is at most this.
pub const MAX_K: u8 = 3;

// Document 01's N, the number of groups, is at most this.
pub const MAX_GROUPS: u8 = 4;

// The replicas of the largest unit: 2k + 1.
pub const MAX_REPLICAS: usize = 7;

// δ is at most this, in units of a replica's clock.
pub const MAX_DELTA: u64 = 1000000;

// The latest local time (document 01's reading): 2^62.
pub const MAX_TIME: u64 = 4611686018427387904;

// The variables of a copy.
pub const VARIABLES: usize = 256;

// The count of writes performed holds at this, the greatest 64-bit number.
pub const MAX_WRITES: u64 = 18446744073709551615;

// The queues of a replica, one for each group that there may be; the pending requests that each has
// places for, and all of them together.
pub const QUEUES: usize = 4;

pub const PLACES: usize = 16;

pub const ALL_PLACES: usize = QUEUES * PLACES;

// The places, queues and variables of all replicas of the largest unit.
pub const UNIT_PLACES: usize = MAX_REPLICAS * ALL_PLACES;

pub const UNIT_QUEUES: usize = MAX_REPLICAS * QUEUES;

pub const UNIT_VARIABLES: usize = MAX_REPLICAS * VARIABLES;

// The bytes of a record, and those of an entry of a journal.
pub const RECORD: usize = 24;

pub const ENTRY: usize = 40;

// The greatest place of a record that a journal counts to, the greatest 64-bit number.
pub const MAX_PLACE: u64 = 18446744073709551615;

// The records that a step may send, and the bytes that it must be lent for them.
pub const MAX_SENT: usize = 67;

pub const OUTPUT: usize = MAX_SENT * RECORD;

// The messages of a list that is voted on.
pub const MAX_LIST: usize = 64;

// A size, or the limit where it is more, as the library's `min` gives it: six crates cut a size by this, and two
// must-fail edits stand here.
pub fn at_most(limit: usize, size: usize) -> usize
    ensures { result ≡ min size limit }
{
    if size < limit { size } else { limit }
}
