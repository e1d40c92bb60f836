// A step (document 01's turn): one pass of Figure 1's major loop.
ghost use Rattle.std.specs.Prelude.{◌≡◌, ℕ};
ghost use Rattle.question.specs.Question.{given, refused, worked, ask, map_answer, after};
ghost use Rattle.question.specs.Refusals.{answer_of};
ghost use Rattle.rules.specs.Replica.{step_questions, step};
ghost use Rattle.state.specs.State.{state_of};
ghost use Rattle.queue.specs.Queue.{queues_in};
ghost use Rattle.step.specs.Output.{state_in};

use crate::visit::visits;
use checks::check_time;
use limits::OUTPUT;
use question::{Refusal, ask};
use queue::{places_of, rows_of};
use record::LocalTime;
use rules::Settings;
use state::Replica;

// A refusal too gives the replica back (clause `kept`): a Result would name it twice.
#[derive(Clone, Copy)]
pub struct Stepped {
    // How many records stand at the start of the output.
    pub answer: Result<usize, Refusal>,
    pub replica: Replica,
}

// Questions 12, 13 and 15.
fn check_step(last: LocalTime, at: LocalTime, room: usize) -> Result<(), Refusal>
    ensures { answer_of result ≡ ask (step_questions last at room) (given worked) }
{
    check_time(last, at)?;
    ask(OUTPUT <= room, Refusal::Room)
}

// What a step gives of a replica that is lent in parts: the answer, and what of it goes by value. Both are
// there whichever way it ends (clause `state`), so they stand beside the Result.
#[derive(Clone, Copy)]
pub struct LentStep {
    pub answer: Result<usize, Refusal>,
    pub writes: u64,
    pub last: LocalTime,
}

// The step of a replica whose pending requests, counts and variables are lent: parts of a unit's arrays.
pub fn step_lent(
    u: Settings,
    number: u8,
    last: LocalTime,
    writes: u64,
    at: LocalTime,
    pending: &mut [[u64; 4]],
    counts: &mut [usize],
    variables: &mut [u32],
    output: &mut [u8],
) -> LentStep
    ensures answer { answer_of result.answer ≡ map_answer (λ d. d.count) (step (state_in u number last (queues_in pending.old counts.old) writes variables.old) at output.old) }
    ensures state { state_in u number result.last (queues_in pending.new counts.new) result.writes variables.new ≡ after (state_in u number last (queues_in pending.old counts.old) writes variables.old) (map_answer (λ d. d.state) (step (state_in u number last (queues_in pending.old counts.old) writes variables.old) at output.old)) }
    ensures output { output.new ≡ after output.old (map_answer (λ d. d.output) (step (state_in u number last (queues_in pending.old counts.old) writes variables.old) at output.old)) }
    ensures kept { (q : ℕ) → answer_of result.answer ≡ refused q → (pending.new ≡ pending.old) × (counts.new ≡ counts.old) }
{
    match check_step(last, at, output.len()) {
        Ok(()) => {
            let done = visits(u, number, at, writes, pending, counts, variables, output);
            LentStep {
                answer: Ok(done.count),
                writes: done.writes,
                last: at,
            }
        }
        Err(refusal) => LentStep {
            answer: Err(refusal),
            writes,
            last,
        },
    }
}

// Not by `step_lent`: a refused step would turn the places into rows for nothing.
pub fn step(r: Replica, at: LocalTime, output: &mut [u8]) -> Stepped
    ensures answer { answer_of result.answer ≡ map_answer (λ d. d.count) (step (state_of r) at output.old) }
    ensures state { state_of result.replica ≡ after (state_of r) (map_answer (λ d. d.state) (step (state_of r) at output.old)) }
    ensures output { output.new ≡ after output.old (map_answer (λ d. d.output) (step (state_of r) at output.old)) }
    ensures kept { (q : ℕ) → answer_of result.answer ≡ refused q → result.replica ≡ r }
{
    match check_step(r.last, at, output.len()) {
        Ok(()) => {
            let mut next = r;
            let mut rows = rows_of(&next.pending, &next.counts);
            let done = visits(
                r.settings,
                r.number,
                at,
                r.writes,
                &mut rows,
                &mut next.counts,
                &mut next.variables,
                output,
            );
            places_of(&rows, &next.counts, &mut next.pending);
            next.writes = done.writes;
            next.last = at;
            Stepped {
                answer: Ok(done.count),
                replica: next,
            }
        }
        Err(refusal) => Stepped {
            answer: Err(refusal),
            replica: r,
        },
    }
}
