// Delivery of a request.
ghost use Rattle.std.specs.Prelude.{◌≡◌, ℕ, ◌≤◌, ◌<◌};
ghost use Rattle.limits.specs.Limits.{max_groups, places};
ghost use Rattle.question.specs.Question.{given, refused, worked, ask, bind, next, after, verdict};
ghost use Rattle.question.specs.Refusals.{answer_of};
ghost use Rattle.record.specs.Record.{read_request};
ghost use Rattle.rules.specs.Replica.{place_questions, arrive, deliver};
ghost use Rattle.state.specs.State.{state_of};
ghost use Rattle.queue.specs.Queue.{count_of};

use checks::check_time;
use limits::PLACES;
use question::{Refusal, ask};
use queue::count_of;
use record::{LocalTime, Request};
use rules::{Pending, Settings};
use state::Replica;

// A refusal too gives the replica back (edit refusal_moves_the_clock): a Result would name it twice.
#[derive(Clone, Copy)]
pub struct Delivered {
    pub outcome: Result<(), Refusal>,
    pub replica: Replica,
}

// Questions 12, 13 and 14. The sender's group has `count` requests pending.
fn check_place(last: LocalTime, count: usize, at: LocalTime) -> Result<(), Refusal>
    ensures { answer_of result ≡ ask (place_questions last count at) (given worked) }
{
    check_time(last, at)?;
    ask(count < PLACES, Refusal::Pending)
}

// The request that a delivery brings, or the refusal, where so many requests of each group are pending.
pub fn admit(
    u: Settings,
    last: LocalTime,
    counts: &[usize],
    bytes: &[u8],
    at: LocalTime,
) -> Result<Request, Refusal>
    ensures { answer_of result ≡ bind (read_request u.k u.groups bytes.now) (λ q. ask (place_questions last (count_of counts.now q.group) at) (given q)) }
{
    let request = record::read_request(u.k, u.groups, bytes)?;
    check_place(last, count_of(counts, request.group), at)?;
    Ok(request)
}

// The replica with one more pending request, the last of its group. To change a copy of the whole takes 1.4
// times as long.
fn add_pending(r: Replica, request: Request, at: LocalTime) -> Replica
    requires { (1 ≤ request.group) × (request.group ≤ max_groups) × (count_of r.counts request.group < places) }
    ensures { state_of result ≡ arrive (state_of r) request at }
{
    let mut pending = r.pending;
    let mut counts = r.counts;
    let i = request.group as usize - 1;
    let n = counts[i];
    let place = PLACES * i + n;
    pending[place] = Pending {
        request,
        arrival: at,
    };
    counts[i] = n + 1;
    Replica {
        last: at,
        pending,
        counts,
        ..r
    }
}

pub fn deliver(r: Replica, bytes: &[u8], at: LocalTime) -> Delivered
    ensures answer { answer_of result.outcome ≡ verdict (deliver (state_of r) bytes.now at) }
    ensures state { state_of result.replica ≡ after (state_of r) (deliver (state_of r) bytes.now at) }
    ensures kept { (q : ℕ) → answer_of result.outcome ≡ refused q → result.replica ≡ r }
{
    let counts = r.counts;
    match admit(r.settings, r.last, &counts, bytes, at) {
        Ok(request) => Delivered {
            outcome: Ok(()),
            replica: add_pending(r, request, at),
        },
        Err(refusal) => Delivered {
            outcome: Err(refusal),
            replica: r,
        },
    }
}
