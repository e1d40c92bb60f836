// The batch of a queue, its requests with the least timestamp: finding it, and taking it off. A queue is
// lent as the rows of its pending requests (crates/queue).
ghost use Rattle.std.specs.Prelude.{◌≡◌, ◌≤◌, not, length};
ghost use Rattle.std.specs.Iterator.{YieldsFirst, item_count};
ghost use Rattle.rules.specs.Lists.{keep};
ghost use Rattle.rules.specs.Replica.{stamped};
ghost use Rattle.queue.specs.Queue.{waiting, places_in};
ghost use Rattle.batch.specs.Head.{meet, head_in, is_late, where_late, requests_at, left_in};

use queue::pending_of;
use record::{LocalTime, Request, Timestamp};
use rules::Pending;

// The head of a queue: its least timestamp, and the first arrival with that timestamp.
#[derive(Clone, Copy)]
pub struct Head {
    pub timestamp: Timestamp,
    pub first: LocalTime,
}

// A head and one more request.
fn meet(head: Option<Head>, p: Pending) -> Option<Head>
    ensures { result ≡ meet head p }
{
    let timestamp = p.request.timestamp;
    let one = Head {
        timestamp,
        first: p.arrival,
    };
    let Some(h) = head else {
        return Some(one);
    };
    // Two tests and no match on `cmp`, with which a step that handles eight batches takes 1.1 times as long
    // (docs/TIMING.md).
    if timestamp < h.timestamp {
        return Some(one);
    }
    if h.timestamp < timestamp {
        return Some(h);
    }
    Some(Head {
        first: h.first.min(one.first),
        ..h
    })
}

fn head_of(queue: &[[u64; 4]]) -> Option<Head>
    ensures { result ≡ head_in (places_in queue.now) }
{
    queue.iter().map(|row| pending_of(*row)).fold(None, meet)
}

// first + delta < at
fn is_late(first: LocalTime, delta: u64, at: LocalTime) -> bool
    ensures { result ≡ is_late first delta at }
{
    delta < at.0.saturating_sub(first.0)
}

// The head where its batch is stable.
pub fn stable_head(queue: &[[u64; 4]], delta: u64, at: LocalTime) -> Option<Head>
    ensures { result ≡ where_late delta at (head_in (places_in queue.now)) }
{
    head_of(queue).filter(|h| is_late(h.first, delta, at))
}

pub fn in_batch(t: Timestamp, p: Pending) -> bool
    ensures { result ≡ stamped t p.request }
{
    p.request.timestamp == t
}

// The requests of a queue with a timestamp, in order of arrival. A type of its own, since no function can
// give an `impl Iterator`.
#[derive(Drop)]
pub struct Batch<'a> {
    rows: &'a [[u64; 4]],
    t: Timestamp,
}

impl<'a> Batch<'a> {
    pub fn of(queue: &'a [[u64; 4]], t: Timestamp) -> Batch<'a>
        ensures { left_in result ≡ requests_at t (places_in queue.now) }
    {
        Batch { rows: queue, t }
    }
}

impl<'a> Iterator for Batch<'a> {
    type Item = Request;

    ghost next_gives = { YieldsFirst left_in };

    ghost remaining = { item_count left_in };

    fn next(&mut self) -> Option<Request> {
        while let Some((row, rest)) = self.rows.split_first() {
            self.rows = rest;
            let p = pending_of(*row);
            if in_batch(self.t, p) {
                return Some(p.request);
            }
        }
        None
    }
}

// Takes the batch off the queue: one pass, each request that stays moves up once. The result is how
// many stay. By an index: a slice has no `retain`, and rows are written while they are read.
pub fn take_off(queue: &mut [[u64; 4]], t: Timestamp) -> usize
    ensures stay { waiting queue.new result ≡ keep (λ p. not (stamped t p.request)) (places_in queue.old) }
    ensures within { result ≤ length queue.old }
{
    let mut kept: usize = 0;
    for i in 0..queue.len() {
        let row = queue[i];
        if !in_batch(t, pending_of(row)) {
            queue[kept] = row;
            kept += 1;
        }
    }
    kept
}
