// The queues of the groups among the places of a replica, as rows and back.
ghost use Rattle.std.specs.Prelude.{◌≡◌, length};
ghost use Rattle.queue.specs.Queue.{count_of, set_count, places_in, queues_in};
ghost use Rattle.state.specs.State.{queue_of};

use crate::row::{pending_of, row_of};
use limits::{ALL_PLACES, PLACES, QUEUES, at_most};
use rules::Pending;

// How many requests a group has, as counted: 0 where it has no count.
pub fn count_of(counts: &[usize], group: u8) -> usize
    ensures { result ≡ count_of counts.now group }
{
    let Some(i) = group.checked_sub(1) else {
        return 0;
    };
    counts.get(usize::from(i)).copied().unwrap_or(0)
}

// Counts so many requests of a group; where it has no count nothing changes.
pub fn set_count(counts: &mut [usize], group: u8, count: usize)
    ensures { counts.new ≡ set_count counts.old group count }
{
    let Some(group) = group.checked_sub(1) else {
        return;
    };
    // Of a slice after its `get_mut` the prover knows no element.
    let i = usize::from(group);
    if i < counts.len() {
        counts[i] = count;
    }
}

// Writes the row of each request. One function for this and the next would take the conversion and what it
// computes, which is longer than both. By an index, here and below: of a slice after its `iter_mut` or
// `chunks_mut` the prover knows no element.
fn write_rows(pending: &[Pending], rows: &mut [[u64; 4]])
    requires { length rows.old ≡ length pending.now }
    ensures { places_in rows.new ≡ pending.now }
{
    for (i, p) in pending.iter().enumerate() {
        rows[i] = row_of(*p);
    }
}

// Writes the request of each row.
fn write_places(rows: &[[u64; 4]], places: &mut [Pending])
    requires { length places.old ≡ length rows.now }
    ensures { places.new ≡ places_in rows.now }
{
    for (i, row) in rows.iter().enumerate() {
        places[i] = pending_of(*row);
    }
}

// The rows of the pending requests; the other rows are zeros.
pub fn rows_of(pending: &[Pending; ALL_PLACES], counts: &[usize; QUEUES]) -> [[u64; 4]; ALL_PLACES]
    ensures { queues_in result counts.now ≡ queue_of pending.now counts.now }
{
    let mut rows = [[0u64; 4]; ALL_PLACES];
    for group in 0..QUEUES {
        let from = PLACES * group;
        let to = from + at_most(PLACES, counts[group]);
        write_rows(&pending[from..to], &mut rows[from..to]);
    }
    rows
}

// Puts the pending requests of the rows into the places; the other places stay as they are.
pub fn places_of(
    rows: &[[u64; 4]; ALL_PLACES],
    counts: &[usize; QUEUES],
    pending: &mut [Pending; ALL_PLACES],
)
    ensures { queue_of pending.new counts.now ≡ queues_in rows.now counts.now }
{
    for group in 0..QUEUES {
        let from = PLACES * group;
        let to = from + at_most(PLACES, counts[group]);
        write_places(&rows[from..to], &mut pending[from..to]);
    }
}
