// One batch: handled as Figure 1 says, and taken off.
ghost use Rattle.std.specs.Prelude.{◌≡◌, ◌≤◌, length, set};
ghost use Rattle.rules.specs.Batch.{Store, one_more, may_change, handle};
ghost use Rattle.rules.specs.Replica.{written, head_timestamp, handle_batch};
ghost use Rattle.queue.specs.Queue.{places_in};
ghost use Rattle.batch.specs.Head.{requests_at};
ghost use Rattle.step.specs.Output.{sends, store_in, part_of_rows, reached_store, reached};

use crate::output::{Visit, value_of};
use batch::{Batch, all_reads, first_of, is_unanimous, take_off};
use limits::MAX_WRITES;
use record::Timestamp;

// What a step has come to: how many writes are performed, and records written so far.
#[derive(Clone, Copy)]
pub struct Tally {
    pub writes: u64,
    pub count: usize,
}

// What the visit of a group has come to: how many requests are left in its queue, and the tally.
#[derive(Clone, Copy)]
pub struct Progress {
    pub left: usize,
    pub tally: Tally,
}

// The count of writes, one more; it holds at its greatest.
fn one_more(writes: u64) -> u64
    ensures { result ≡ one_more writes }
{
    writes.saturating_add(1).min(MAX_WRITES)
}

// The variable takes the value. A variable past the slice is nowhere.
fn assign(variables: &mut [u32], variable: u16, value: u32)
    ensures { variables.new ≡ set variables.old variable value }
{
    // Of a slice after its `get_mut` the prover knows no element.
    let i = usize::from(variable);
    if i < variables.len() {
        variables[i] = value;
    }
}

impl Visit {
    // The owner's batch, and the store has not failed.
    fn may_change(self, variables: &[u32]) -> bool
        ensures { (s : Store) → s.variables ≡ variables.now → result ≡ may_change self.settings self.group s }
    {
        (self.group == self.settings.owner) & !(value_of(variables, 0) == 1)
    }

    // What comes of the requests of a queue with a timestamp.
    fn carry_out(
        self,
        t: Timestamp,
        tally: Tally,
        queue: &[[u64; 4]],
        variables: &mut [u32],
        output: &mut [u8],
    ) -> Tally
        ensures { reached_store result variables.new output.new ≡ sends self.settings (written tally.count output.old) (handle self.settings self.number self.group t (requests_at t (places_in queue.now)) (store_in variables.old tally.writes)) }
    {
        if all_reads(queue, t) {
            let batch = Batch::of(queue, t);
            let count = self.send_replies(batch, variables, output, tally.count);
            return Tally { count, ..tally };
        }
        if !self.may_change(variables) {
            return tally;
        }
        if is_unanimous(queue, self.settings.k, t) {
            let first = first_of(queue, t);
            assign(variables, first.variable, first.value);
            let writes = one_more(tally.writes);
            return Tally { writes, ..tally };
        }
        assign(variables, 0, 1);
        let count = self.send_halts(t, output, tally.count);
        Tally { count, ..tally }
    }

    // The batch of the group, which has the least timestamp of its queue.
    pub(crate) fn handle_batch(
        self,
        t: Timestamp,
        tally: Tally,
        queue: &mut [[u64; 4]],
        variables: &mut [u32],
        output: &mut [u8],
    ) -> Progress
        requires { t ≡ head_timestamp (places_in queue.old) }
        ensures reached { reached result queue.new variables.new output.new ≡ sends self.settings (written tally.count output.old) (handle_batch self.settings self.number self.group (part_of_rows tally queue.old variables.old)) }
        ensures within { result.left ≤ length queue.old }
    {
        let tally = self.carry_out(t, tally, queue, variables, output);
        let left = take_off(queue, t);
        Progress { left, tally }
    }
}
