// What a batch is: all reads, or a unanimous write.
ghost use Rattle.std.specs.Prelude.{◌≡◌};
ghost use Rattle.rules.specs.Batch.{all_reads, first_of, unanimous};
ghost use Rattle.queue.specs.Queue.{places_in};
ghost use Rattle.batch.specs.Head.{requests_at};

use crate::pending::Batch;
use record::{Request, Timestamp};

pub fn all_reads(queue: &[[u64; 4]], t: Timestamp) -> bool
    ensures { result ≡ all_reads (requests_at t (places_in queue.now)) }
{
    Batch::of(queue, t).all(|q| q.is_read())
}

// The first request of the batch, or a blank one.
pub fn first_of(queue: &[[u64; 4]], t: Timestamp) -> Request
    ensures { result ≡ first_of (requests_at t (places_in queue.now)) }
{
    Batch::of(queue, t).next().unwrap_or_else(Request::blank)
}

// Exactly k + 1 requests, all writes, all from different processes, equal in variable and value.
pub fn is_unanimous(queue: &[[u64; 4]], k: u8, t: Timestamp) -> bool
    ensures { result ≡ unanimous k (requests_at t (places_in queue.now)) }
{
    is_unanimous_from(queue, k, t, first_of(queue, t))
}

// The same, where the first request of the batch is known.
fn is_unanimous_from(queue: &[[u64; 4]], k: u8, t: Timestamp, first: Request) -> bool
    requires { first ≡ first_of (requests_at t (places_in queue.now)) }
    ensures { result ≡ unanimous k (requests_at t (places_in queue.now)) }
{
    let mut seen = [false; 256];
    let mut size: usize = 0;
    let mut same = true;
    // One pass for all that is asked of the batch.
    for request in Batch::of(queue, t) {
        let sender = request.process as usize;
        same &= request.agrees(first) & !seen[sender];
        seen[sender] = true;
        size += 1;
    }
    same & (size == k as usize + 1)
}
