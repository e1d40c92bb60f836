// Making, delivery and step. A refused delivery or step gives the replica back as it was lent, a
// refused making a blank one.
ghost use Rattle.std.specs.Prelude.{◌≡◌, ℕ};
ghost use Rattle.question.specs.Question.{refused, map_answer, after, verdict};
ghost use Rattle.rules.specs.Replica.{make, deliver, step};
ghost use Rattle.state.specs.State.{state_of};
ghost use Rattle.state.specs.Made.{blank_replica, blank_state};
ghost use Rattle.export.specs.Result.{refusal_of};

use crate::records::refusal_of;
use record::LocalTime;
use replica::Replica;
use rules::Settings;

#[repr(C)]
#[derive(Clone, Copy)]
pub struct ReplicaResult {
    pub refusal: u8,
    pub replica: Replica,
}

#[repr(C)]
#[derive(Clone, Copy)]
pub struct StepResult {
    pub refusal: u8,
    // How many records stand at the start of the output.
    pub count: usize,
    pub replica: Replica,
}

#[unsafe(no_mangle)]
pub extern "C" fn failstop_make(u: Settings, number: u8) -> ReplicaResult
    ensures answer { result.refusal ≡ refusal_of (verdict (make u number)) }
    ensures state { state_of result.replica ≡ after blank_state (make u number) }
    ensures blank { (q : ℕ) → make u number ≡ refused q → result.replica ≡ blank_replica }
{
    // Two returns: where both ways join, the compiler makes the replica aside and copies it.
    let replica = match replica::make(u, number) {
        Ok(replica) => replica,
        Err(refusal) => {
            return ReplicaResult {
                refusal: u8::from(refusal),
                replica: Replica::blank(),
            };
        }
    };
    ReplicaResult {
        refusal: 0,
        replica,
    }
}

#[unsafe(no_mangle)]
pub extern "C" fn failstop_deliver(r: Replica, bytes: &[u8], at: LocalTime) -> ReplicaResult
    ensures answer { result.refusal ≡ refusal_of (verdict (deliver (state_of r) bytes.now at)) }
    ensures state { state_of result.replica ≡ after (state_of r) (deliver (state_of r) bytes.now at) }
    ensures kept { (q : ℕ) → deliver (state_of r) bytes.now at ≡ refused q → result.replica ≡ r }
{
    let delivered = replica::deliver(r, bytes, at);
    // By names of their own: as fields of a field the replica would be copied once more.
    let outcome = delivered.outcome;
    let replica = delivered.replica;
    ReplicaResult {
        refusal: refusal_of(&outcome),
        replica,
    }
}

#[unsafe(no_mangle)]
pub extern "C" fn failstop_step(r: Replica, at: LocalTime, output: &mut [u8]) -> StepResult
    ensures answer { result.refusal ≡ refusal_of (map_answer (λ d. d.count) (step (state_of r) at output.old)) }
    ensures count { result.count ≡ after 0 (map_answer (λ d. d.count) (step (state_of r) at output.old)) }
    ensures state { state_of result.replica ≡ after (state_of r) (map_answer (λ d. d.state) (step (state_of r) at output.old)) }
    ensures output { output.new ≡ after output.old (map_answer (λ d. d.output) (step (state_of r) at output.old)) }
    ensures kept { (q : ℕ) → step (state_of r) at output.old ≡ refused q → result.replica ≡ r }
{
    let stepped = replica::step(r, at, output);
    let answer = stepped.answer;
    let replica = stepped.replica;
    StepResult {
        refusal: refusal_of(&answer),
        count: answer.unwrap_or(0),
        replica,
    }
}
