// The replica's struct, passed and returned by value.
use limits::{ALL_PLACES, QUEUES, VARIABLES};
use record::LocalTime;
use rules::{Pending, Settings};

#[repr(C)]
#[derive(Clone, Copy)]
pub struct Replica {
    pub settings: Settings,
    // Its own number among the replicas.
    pub number: u8,
    // The last accepted local time.
    pub last: LocalTime,
    pub variables: [u32; VARIABLES],
    // Document 02's shelves: sixteen places for each group, those of group 1 first. The first of a
    // group's are pending, in order of arrival, as many as are counted. The others are free: no answer
    // depends on them.
    pub pending: [Pending; ALL_PLACES],
    pub counts: [usize; QUEUES],
    pub writes: u64,
}
