// Making a replica.
ghost use Rattle.std.specs.Prelude.{◌≡◌};
ghost use Rattle.question.specs.Question.{given, worked, ask, map_answer};
ghost use Rattle.question.specs.Refusals.{answer_of};
ghost use Rattle.rules.specs.Replica.{make_questions, make};
ghost use Rattle.state.specs.State.{state_of};
ghost use Rattle.state.specs.Made.{new_replica, blank_replica};

use crate::state::Replica;
use checks::check_settings;
use limits::{ALL_PLACES, QUEUES, VARIABLES};
use question::{Refusal, ask, is_within};
use record::{LocalTime, Request};
use rules::{Pending, Settings};

// Questions 1 to 5.
fn check_make(u: Settings, number: u8) -> Result<(), Refusal>
    ensures { answer_of result ≡ ask (make_questions u number) (given worked) }
{
    check_settings(u)?;
    let own = is_within(1, 2 * u.k as u64 + 1, number as u64);
    ask(own, Refusal::Replica)
}

fn new_replica(u: Settings, number: u8) -> Replica
    ensures { result ≡ new_replica u number }
{
    let request = Request::blank();
    let free = Pending {
        request,
        arrival: LocalTime(0),
    };
    let variables = [0u32; VARIABLES];
    let pending = [free; ALL_PLACES];
    let counts = [0usize; QUEUES];
    Replica {
        settings: u,
        number,
        last: LocalTime(0),
        variables,
        pending,
        counts,
        writes: 0,
    }
}

impl Replica {
    // No replica: what stands where none was made. All zeros.
    pub fn blank() -> Replica
        ensures { result ≡ blank_replica }
    {
        let none = Settings {
            k: 0,
            groups: 0,
            owner: 0,
            delta: 0,
        };
        new_replica(none, 0)
    }
}

pub fn make(u: Settings, number: u8) -> Result<Replica, Refusal>
    ensures { map_answer state_of (answer_of result) ≡ make u number }
{
    check_make(u, number)?;
    Ok(new_replica(u, number))
}
