// A pending request as a row of four words: C lends such rows to `failstop_play_block`.
ghost use Rattle.std.specs.Prelude.{◌≡◌, ◌≤◌, length};
ghost use Rattle.queue.specs.Row.{row_of, pending_of};
ghost use Rattle.queue.specs.Queue.{waiting};

use limits::at_most;
use record::{LocalTime, Request, Timestamp};
use rules::Pending;

// Its timestamp; its arrival; its kind, group, process and variable; its value. A function and no From, since neither
// an array nor `Pending` is a type of this crate.
pub fn row_of(p: Pending) -> [u64; 4]
    ensures is { result ≡ row_of p }
    ensures back { pending_of result ≡ p }
{
    let q = p.request;
    let low = u64::from(q.kind) + 256 * u64::from(q.group);
    let high = u64::from(q.process) + 256 * u64::from(q.variable);
    [
        q.timestamp.0,
        p.arrival.0,
        low + 65536 * high,
        u64::from(q.value),
    ]
}

// The request of any row.
pub fn pending_of(row: [u64; 4]) -> Pending
    ensures { result ≡ pending_of row }
{
    let what = row[2];
    let request = Request {
        kind: (what % 256) as u8,
        group: (what / 256 % 256) as u8,
        process: (what / 65536 % 256) as u8,
        variable: (what / 16777216 % 65536) as u16,
        timestamp: Timestamp(row[0]),
        value: (row[3] % 4294967296) as u32,
    };
    Pending {
        request,
        arrival: LocalTime(row[1]),
    }
}

// How many of the rows are pending: a count past them means all.
pub fn pending_count(queue: &[[u64; 4]], count: usize) -> usize
    ensures is { result ≡ length (waiting queue.now count) }
    ensures within { result ≤ length queue.now }
{
    at_most(queue.len(), count)
}
