// Over a lent list of messages. The tally is the one thin loop over the slice: it hands the fields
// of each message to `hear`. The two calls on an array, which docs/THEOREM.md names, lend its first
// messages.
ghost use Rattle.std.specs.Prelude.{◌≡◌, take};
ghost use Rattle.question.specs.Refusals.{answer_of};
ghost use Rattle.rules.specs.Vote.{vote, halt_count};
ghost use Rattle.ballot.specs.Ballot.{halt_query, ballot_of};

use ballot::Ballot;
use limits::{MAX_LIST, at_most};
use question::Refusal;
use record::{Message, Timestamp};
use rules::{Election, HaltCount, Query};

// The places of an array of messages: one more than a list may have, so that a list that is too
// long can be shown.
pub const LIST_PLACES: usize = MAX_LIST + 1;

pub(crate) fn tally(k: u8, n: u8, q: Query, list: &[Message]) -> Ballot
    ensures { result ≡ ballot_of k n q list.now }
{
    let mut b = Ballot::new(list.len());
    for m in list {
        b = b.hear(
            k,
            n,
            q,
            m.kind,
            m.group,
            m.process,
            m.replica,
            m.variable,
            m.timestamp,
            m.value,
        );
    }
    b
}

pub fn vote(k: u8, n: u8, q: Query, list: &[Message]) -> Result<Election, Refusal>
    ensures { answer_of result ≡ vote k n q list.now }
{
    tally(k, n, q, list).answer_vote(k, n)
}

// What a halt count is on: a query whose variable and timestamp no halt looks at.
fn halt_query(group: u8, process: u8) -> Query
    ensures { result ≡ halt_query group process }
{
    Query {
        group,
        process,
        variable: 0,
        timestamp: Timestamp(0),
    }
}

pub fn count_halts(
    k: u8,
    n: u8,
    group: u8,
    process: u8,
    list: &[Message],
) -> Result<HaltCount, Refusal>
    ensures { answer_of result ≡ halt_count k n group process list.now }
{
    tally(k, n, halt_query(group, process), list).answer_halts(k, n)
}

// The first `count` messages, or all where there are fewer.
fn first(list: &[Message], count: usize) -> &[Message]
    ensures { result.now ≡ take count list.now }
{
    &list[..at_most(list.len(), count)]
}

// The vote on the first `count` messages of an array.
pub fn vote_in(
    k: u8,
    n: u8,
    q: Query,
    list: [Message; LIST_PLACES],
    count: usize,
) -> Result<Election, Refusal>
    ensures { answer_of result ≡ vote k n q (take count list) }
{
    vote(k, n, q, first(&list, count))
}

// The halt count on the first `count` messages of an array.
pub fn count_halts_in(
    k: u8,
    n: u8,
    group: u8,
    process: u8,
    list: [Message; LIST_PLACES],
    count: usize,
) -> Result<HaltCount, Refusal>
    ensures { answer_of result ≡ halt_count k n group process (take count list) }
{
    count_halts(k, n, group, process, first(&list, count))
}
