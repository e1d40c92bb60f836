// The replicas of a unit, lent side by side: a delivery to one of them, and its step.
ghost use Rattle.std.specs.Prelude.{◌≡◌, ◌-◌, ◌≤◌, ◌<◌, [], ◌∷◌, ◌++◌, length, slice_index};
ghost use Rattle.limits.specs.Limits.{max_groups, places, all_places};
ghost use Rattle.question.specs.Question.{map_answer, after, verdict};
ghost use Rattle.question.specs.Refusals.{answer_of};
ghost use Rattle.rules.specs.Replica.{replace, deliver, step};
ghost use Rattle.queue.specs.Queue.{queues_in};
ghost use Rattle.transcript.specs.Journal.{replaced};
ghost use Rattle.playback.specs.Arrays.{arrays_of, replica_at, SameArrays};

use crate::number::Number;
use delivery::admit;
use limits::{
    ALL_PLACES, MAX_REPLICAS, PLACES, QUEUES, UNIT_PLACES, UNIT_QUEUES, UNIT_VARIABLES, VARIABLES,
};
use question::Refusal;
use queue::row_of;
use record::{LocalTime, Request};
use rules::{Pending, Settings};
use step::step_lent;

// The arrays that a unit's replicas stand in, of which each has an equal part, the first one the first;
// specs/Arrays.antt says what they stand for. Five arrays, since C lends them so. Whoever is lent them promises
// that the references are the same afterwards (`SameArrays`): its caller knows the arrays by that alone.
#[derive(Drop)]
pub struct Replicas<'a> {
    pub pending: &'a mut [[u64; 4]; UNIT_PLACES],
    pub counts: &'a mut [usize; UNIT_QUEUES],
    pub variables: &'a mut [u32; UNIT_VARIABLES],
    pub writes: &'a mut [u64; MAX_REPLICAS],
    pub lasts: &'a mut [u64; MAX_REPLICAS],
}

// One more pending request of a replica, the last of its group; crates/delivery has it for a struct's places.
fn add_pending(pending: &mut [[u64; 4]], counts: &mut [usize], request: Request, at: LocalTime)
    requires pending_len { length pending.old ≡ all_places }
    requires counts_len { length counts.old ≡ max_groups }
    requires group_there { (1 ≤ request.group) × (request.group ≤ max_groups) }
    requires group_has_room { slice_index counts.old (request.group - 1) < places }
    ensures { queues_in pending.new counts.new ≡ replace request.group (queues_in pending.old counts.old request.group ++ record { request = request; arrival = at } ∷ []) (queues_in pending.old counts.old) }
{
    let group = request.group as usize - 1;
    let n = counts[group];
    let added = Pending {
        request,
        arrival: at,
    };
    pending[PLACES * group + n] = row_of(added);
    counts[group] = n + 1;
}

// Each method lends a replica's part of each array. The array is lent whole first, since its length is known
// then.
impl<'a> Replicas<'a> {
    pub(crate) fn deliver_to(
        &mut self,
        u: Settings,
        number: Number,
        bytes: &[u8],
        at: LocalTime,
    ) -> Result<(), Refusal>
        ensures same_arrays { SameArrays self.old self.new }
        ensures answer { answer_of result ≡ verdict (deliver (replica_at u (arrays_of self.old) number.value) bytes.now at) }
        ensures state { replica_at u (arrays_of self.new) ≡ replaced number.value (after (replica_at u (arrays_of self.old) number.value) (deliver (replica_at u (arrays_of self.old) number.value) bytes.now at)) (replica_at u (arrays_of self.old)) }
    {
        let i = number.index();
        let row = ALL_PLACES * i;
        let queue = QUEUES * i;
        let pending = &mut *self.pending;
        let pending = &mut pending[..];
        let counts = &mut *self.counts;
        let lasts = &mut *self.lasts;
        let request = admit(
            u,
            LocalTime(lasts[i]),
            &counts[queue..queue + QUEUES],
            bytes,
            at,
        )?;
        let pending = &mut pending[row..row + ALL_PLACES];
        add_pending(pending, &mut counts[queue..queue + QUEUES], request, at);
        lasts[i] = at.0;
        Ok(())
    }

    pub(crate) fn step_of(
        &mut self,
        u: Settings,
        number: Number,
        at: LocalTime,
        output: &mut [u8],
    ) -> Result<usize, Refusal>
        ensures same_arrays { SameArrays self.old self.new }
        ensures answer { answer_of result ≡ map_answer (λ d. d.count) (step (replica_at u (arrays_of self.old) number.value) at output.old) }
        ensures state { replica_at u (arrays_of self.new) ≡ replaced number.value (after (replica_at u (arrays_of self.old) number.value) (map_answer (λ d. d.state) (step (replica_at u (arrays_of self.old) number.value) at output.old))) (replica_at u (arrays_of self.old)) }
        ensures output { output.new ≡ after output.old (map_answer (λ d. d.output) (step (replica_at u (arrays_of self.old) number.value) at output.old)) }
    {
        let i = number.index();
        let row = ALL_PLACES * i;
        let queue = QUEUES * i;
        let variable = VARIABLES * i;
        let pending = &mut *self.pending;
        let pending = &mut pending[..];
        let counts = &mut *self.counts;
        let variables = &mut *self.variables;
        let writes = &mut *self.writes;
        let lasts = &mut *self.lasts;
        let done = step_lent(
            u,
            number.value,
            LocalTime(lasts[i]),
            writes[i],
            at,
            &mut pending[row..row + ALL_PLACES],
            &mut counts[queue..queue + QUEUES],
            &mut variables[variable..variable + VARIABLES],
            output,
        );
        writes[i] = done.writes;
        lasts[i] = done.last.0;
        done.answer
    }
}
