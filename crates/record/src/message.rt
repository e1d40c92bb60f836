// Messages: a reply or a halt, from a replica to a process.
ghost use Rattle.std.specs.Prelude.{◌≡◌};
ghost use Rattle.question.specs.Question.{after, verdict};
ghost use Rattle.question.specs.Refusals.{answer_of};
ghost use Rattle.record.specs.declared.kind.Family.TheVariants.{Messages};
ghost use Rattle.record.specs.Record.{message_in, message_fields, read_message, write_message, passes, blank_message};

use crate::check::Scope;
use crate::kind::Family;
use crate::record::{Record, read, write};
use layout::{Fields, Timestamp};
use question::Refusal;

#[repr(C)]
#[derive(Clone, Copy, Default)]
pub struct Message {
    // A byte and no enum: it is C's.
    pub kind: u8,
    pub group: u8,
    // Document 01's program card: the process that the message is for.
    pub process: u8,
    // Document 01's storage card: the replica that sends it.
    pub replica: u8,
    pub variable: u16,
    pub timestamp: Timestamp,
    pub value: u32,
}

impl Message {
    // No message: what stands where there is none.
    pub fn blank() -> Message
        ensures { result ≡ blank_message }
    {
        Message::default()
    }

    // Whether the message questions are all answered yes.
    pub fn passes(self, k: u8, n: u8) -> bool
        ensures { result ≡ passes k n self }
    {
        let scope = Scope {
            family: Message::FAMILY,
            k,
            n,
        };
        scope.check_fields(self.into()).is_ok()
    }
}

impl From<Fields> for Message {
    ghost from_gives = { λ f m. m ≡ message_in f };

    fn from(f: Fields) -> Message {
        Message {
            kind: f.kind,
            group: f.group,
            process: f.process,
            replica: f.replica,
            variable: f.variable,
            timestamp: f.timestamp,
            value: f.value,
        }
    }
}

impl From<Message> for Fields {
    ghost from_gives = { λ m f. f ≡ message_fields m };

    fn from(m: Message) -> Fields {
        Fields {
            kind: m.kind,
            group: m.group,
            process: m.process,
            replica: m.replica,
            variable: m.variable,
            spare6: 0,
            timestamp: m.timestamp,
            value: m.value,
            spare20: 0,
        }
    }
}

impl Record for Message {
    const FAMILY: Family = Family::Messages;

    ghost FAMILY = { Messages };

    ghost of = { message_in };

    ghost into = { message_fields };

    ghost from_is = { λ _ _ is. is };

    ghost into_is = { λ _ _ is. is };
}

// `read` at one type: C and the documents call it by this name.
pub fn read_message(k: u8, n: u8, bytes: &[u8]) -> Result<Message, Refusal>
    ensures { answer_of result ≡ read_message k n bytes.now }
{
    read(k, n, bytes)
}

// `write` at one type, by the name that C and the documents have.
pub fn write_message(k: u8, n: u8, m: Message, destination: &mut [u8]) -> Result<(), Refusal>
    ensures answer { answer_of result ≡ verdict (write_message k n m destination.old) }
    ensures content { destination.new ≡ after destination.old (write_message k n m destination.old) }
{
    write(k, n, m, destination)
}
