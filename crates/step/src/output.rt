// The messages of a step, each written through the part of the output that begins where the last
// ended. `count` is how many records stand there.
ghost use Rattle.std.specs.Prelude.{◌≡◌, map, get_or};
ghost use Rattle.rules.specs.Batch.{Store, reply_to, halt_to, halt_all};
ghost use Rattle.rules.specs.Replica.{written, put, put_all};
ghost use Rattle.batch.specs.Head.{left_in};

use batch::Batch;
use limits::{MAX_K, RECORD};
use record::{HALT, LocalTime, Message, REPLY, Request, Timestamp};
use rules::Settings;

// A replica at its visit of a group: what is the same for each of the group's batches.
#[derive(Clone, Copy)]
pub struct Visit {
    pub settings: Settings,
    pub number: u8,
    pub group: u8,
    pub at: LocalTime,
}

// Writes a message behind the records, and counts it if it was written. The output and the count stand apart,
// as `written` of the rules has them: each record goes through the part that begins where the last ended.
fn put(u: Settings, m: Message, output: &mut [u8], count: usize) -> usize
    ensures { written result output.new ≡ put u.k u.groups (written count output.old) m }
{
    if output.len() / RECORD <= count {
        return count;
    }
    let at = count * RECORD;
    match record::write_message(u.k, u.groups, m, &mut output[at..]) {
        Ok(()) => count + 1,
        Err(_) => count,
    }
}

// A variable past the array has the value 0.
pub(crate) fn value_of(variables: &[u32], variable: u16) -> u32
    ensures { result ≡ get_or variables.now variable 0 }
{
    variables.get(usize::from(variable)).copied().unwrap_or(0)
}

fn reply_to(variables: &[u32], replica: u8, q: Request) -> Message
    ensures { (s : Store) → s.variables ≡ variables.now → result ≡ reply_to s replica q }
{
    let timestamp = q.timestamp;
    Message {
        kind: REPLY,
        group: q.group,
        process: q.process,
        replica,
        variable: q.variable,
        timestamp,
        value: value_of(variables, q.variable),
    }
}

fn halt_to(group: u8, replica: u8, t: Timestamp, process: u8) -> Message
    ensures { result ≡ halt_to group replica t process }
{
    Message {
        kind: HALT,
        group,
        process,
        replica,
        variable: 0,
        timestamp: t,
        value: 0,
    }
}

impl Visit {
    // Answers each read of a batch, in order of arrival, and gives the new count.
    pub(crate) fn send_replies(
        self,
        batch: Batch,
        variables: &[u32],
        output: &mut [u8],
        count: usize,
    ) -> usize
        ensures { (s : Store) → s.variables ≡ variables.now → written result output.new ≡ put_all self.settings.k self.settings.groups (written count output.old) (map (reply_to s self.number) (left_in batch.entry)) }
    {
        let mut next = count;
        for request in batch {
            let reply = reply_to(variables, self.number, request);
            next = put(self.settings, reply, output, next);
        }
        next
    }

    // Halts the processes 1 to k + 1 of the group, ascending, and gives the new count. Where k is no
    // unit's, no record is written, as `write_message` says.
    pub(crate) fn send_halts(self, t: Timestamp, output: &mut [u8], count: usize) -> usize
        ensures { written result output.new ≡ put_all self.settings.k self.settings.groups (written count output.old) (halt_all self.settings.k self.group self.number t) }
    {
        if MAX_K < self.settings.k {
            return count;
        }
        let mut next = count;
        for process in 1..=self.settings.k + 1 {
            let halt = halt_to(self.group, self.number, t, process);
            next = put(self.settings, halt, output, next);
        }
        next
    }
}
