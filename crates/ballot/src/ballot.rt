// A ballot: what was heard so far of each replica.
ghost use Rattle.std.specs.Prelude.{◌≤◌, ◌≡◌};
ghost use Rattle.rules.specs.Vote.{answers, halts_for};
ghost use Rattle.ballot.specs.Sets.{last_replica};
ghost use Rattle.ballot.specs.Ballot.{message_of, new_ballot, note_reply, note_halt, hear};

use crate::sets::{LAST_REPLICA, Replicas};
use limits::MAX_LIST;
use record::{HALT, Message, REPLY, Timestamp};
use rules::Query;

// A place for each number up to the last replica's; no replica has number 0. Copies of 8 values are
// two loads that do not overlap; those of 7 overlap, and wait for each other.
const VALUES: usize = LAST_REPLICA + 1;

// A set beside the values and not an Option for each: a flag noted beside its value made the next copy of
// the ballot wait (docs/DECISIONS.md).
#[derive(Clone, Copy)]
pub struct Ballot {
    // The value of each replica's first counting reply, at the index that is its number.
    pub(crate) values: [u32; VALUES],
    // Whose counting reply came, and whose counting halt.
    pub(crate) heard: Replicas,
    pub(crate) halted: Replicas,
    // Question 16: the list is no longer than it may be.
    pub(crate) short: bool,
}

// The reply asked for: it matches all four. A query of the message's fields, to compare with, is as long.
fn answers(q: Query, m: Message) -> bool
    ensures { result ≡ answers q m }
{
    (m.kind == REPLY)
        & (m.group == q.group)
        & (m.process == q.process)
        & (m.variable == q.variable)
        & (m.timestamp == q.timestamp)
}

// A halt that matches group and process.
fn halts_for(q: Query, m: Message) -> bool
    ensures { result ≡ halts_for q.group q.process m }
{
    (m.kind == HALT) & (m.group == q.group) & (m.process == q.process)
}

impl Ballot {
    // Of a list of the given length; nothing was heard.
    pub fn new(length: usize) -> Ballot
        ensures { result ≡ new_ballot length }
    {
        Ballot {
            values: [0u32; VALUES],
            heard: Replicas(0),
            halted: Replicas(0),
            short: length <= MAX_LIST,
        }
    }

    // The first reply of a replica, and its first halt. With struct update each message copies the values: a
    // vote takes a fifth more time (docs/TIMING.md).
    fn note_reply(self, replica: u8, value: u32) -> Ballot
        requires { (1 ≤ replica) × (replica ≤ last_replica) }
        ensures { result ≡ note_reply self replica value }
    {
        let i = replica as usize;
        let mut next = self;
        next.heard = self.heard.with(i);
        next.values[i] = value;
        next
    }

    fn note_halt(self, replica: u8) -> Ballot
        requires { (1 ≤ replica) × (replica ≤ last_replica) }
        ensures { result ≡ note_halt self replica }
    {
        let mut next = self;
        next.halted = self.halted.with(replica as usize);
        next
    }

    // One message, handed over by its fields, as document 01 names the tally; k and N are two numbers, as in
    // the definition.
    pub fn hear(
        self,
        k: u8,
        n: u8,
        q: Query,
        kind: u8,
        group: u8,
        process: u8,
        replica: u8,
        variable: u16,
        timestamp: Timestamp,
        value: u32,
    ) -> Ballot
        ensures { result ≡ hear k n q self (message_of kind group process replica variable timestamp value) }
    {
        let m = Message {
            kind,
            group,
            process,
            replica,
            variable,
            timestamp,
            value,
        };
        let passes = m.passes(k, n);
        // What changes nothing goes to the end, where the ballot is not copied.
        if passes & answers(q, m) & self.heard.lacks(replica) {
            return self.note_reply(replica, value);
        }
        if passes & halts_for(q, m) & self.halted.lacks(replica) {
            return self.note_halt(replica);
        }
        self
    }
}
