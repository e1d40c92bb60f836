// The visits of the groups: one, and all.
ghost use Rattle.std.specs.Prelude.{◌≤◌, ◌≡◌, length};
ghost use Rattle.rules.specs.Replica.{written, visit, visit_group, visits};
ghost use Rattle.queue.specs.Queue.{waiting, queues_in};
ghost use Rattle.step.specs.Output.{sends, part_in, reached, state_in, reached_all};

use crate::handle::{Progress, Tally};
use crate::output::Visit;
use batch::stable_head;
use limits::{PLACES, at_most};
use queue::{count_of, pending_count, set_count};
use record::LocalTime;
use rules::Settings;

impl Visit {
    // While the group's batch is stable, that batch is handled.
    fn handle_stable(
        self,
        p: Progress,
        queue: &mut [[u64; 4]],
        variables: &mut [u32],
        output: &mut [u8],
    ) -> Progress
        requires { p.left ≤ length queue.old }
        ensures reached { reached result queue.new variables.new output.new ≡ sends self.settings (written p.tally.count output.old) (visit self.settings self.number self.group self.at (length (waiting queue.old p.left)) (part_in p queue.old variables.old)) }
        ensures within { result.left ≤ p.left }
    {
        let mut done = p;
        while let Some(head) = stable_head(&queue[..done.left], self.settings.delta, self.at) {
            let pending = &mut queue[..done.left];
            done = self.handle_batch(head.timestamp, done.tally, pending, variables, output);
        }
        done
    }

    // The visit of the group: its rows are lent, and where requests were taken off, its count is set.
    fn visit(
        self,
        tally: Tally,
        pending: &mut [[u64; 4]],
        counts: &mut [usize],
        variables: &mut [u32],
        output: &mut [u8],
    ) -> Tally
        requires { 1 ≤ self.group }
        ensures { reached_all self.settings self.number self.at result pending.new counts.new variables.new output.new ≡ sends self.settings (written tally.count output.old) (visit_group self.group self.at (state_in self.settings self.number self.at (queues_in pending.old counts.old) tally.writes variables.old)) }
    {
        let i = usize::from(self.group) - 1;
        let from = at_most(pending.len(), PLACES * i);
        let to = at_most(pending.len(), PLACES * i + PLACES);
        let queue = &mut pending[from..to];
        let left = pending_count(queue, count_of(counts, self.group));
        let done = self.handle_stable(Progress { left, tally }, queue, variables, output);
        if done.left < left {
            set_count(counts, self.group, done.left);
        }
        done.tally
    }
}

// The visits of groups 1 to N. Its parameters are those of `step_lent`, which C's unit is lent to in parts.
pub(crate) fn visits(
    settings: Settings,
    number: u8,
    at: LocalTime,
    performed: u64,
    pending: &mut [[u64; 4]],
    counts: &mut [usize],
    variables: &mut [u32],
    output: &mut [u8],
) -> Tally
    ensures { reached_all settings number at result pending.new counts.new variables.new output.new ≡ sends settings (written 0 output.old) (visits settings.groups at (state_in settings number at (queues_in pending.old counts.old) performed variables.old)) }
{
    let mut done = Tally {
        writes: performed,
        count: 0,
    };
    for i in 0..settings.groups {
        let visit = Visit {
            settings,
            number,
            group: i + 1,
            at,
        };
        done = visit.visit(done, pending, counts, variables, output);
    }
    done
}
