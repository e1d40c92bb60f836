// Sets of replicas.
ghost use Rattle.std.specs.Prelude.{◌≡◌, ◌+◌, ◌*◌, ◌-◌, ◌^◌, ◌≤◌};
ghost use Rattle.limits.specs.Limits.{max_k};
ghost use Rattle.rules.specs.Sets.{has, with};
ghost use Rattle.ballot.specs.Sets.{last_replica, is_replica, lacks};

use limits::MAX_REPLICAS;
use question::is_within;

// The highest number that a replica has, in any unit.
pub(crate) const LAST_REPLICA: usize = MAX_REPLICAS;

// One bit for each replica, the lowest for replica 1. A number is one of a replica where it is asked for by
// `lacks` or counted from 1; a type for that would be made and opened again in each of these lines.
#[derive(Clone, Copy)]
pub(crate) struct Replicas(pub(crate) u8);

// Whether any unit has a replica of this number.
fn is_replica(number: u8) -> bool
    ensures { result ≡ is_replica number }
{
    is_within(1, MAX_REPLICAS as u64, number as u64)
}

impl Replicas {
    // All 2k + 1 replicas of a unit.
    pub(crate) fn of_unit(k: u8) -> Replicas
        requires { k ≤ max_k }
        ensures { result.0 ≡ 2 ^ (2 * k + 1) - 1 }
    {
        Replicas((1u8 << (2 * k + 1)) - 1)
    }

    pub(crate) fn has(self, replica: usize) -> bool
        requires { (1 ≤ replica) × (replica ≤ last_replica) }
        ensures { result ≡ has self.0 replica }
    {
        (self.0 >> (replica - 1)) & 1 == 1
    }

    // Whether the set could have the replica and does not.
    pub(crate) fn lacks(self, replica: u8) -> bool
        ensures { result ≡ lacks self.0 replica }
    {
        is_replica(replica) && !self.has(replica as usize)
    }

    pub(crate) fn with(self, replica: usize) -> Replicas
        requires { (1 ≤ replica) × (replica ≤ last_replica) }
        ensures { result.0 ≡ with self.0 replica }
    {
        Replicas(self.0 | (1u8 << (replica - 1)))
    }
}
