// Requests: a read or a write, from a process to the replicas.
ghost use Rattle.std.specs.Prelude.{◌≡◌, ◌&&◌};
ghost use Rattle.question.specs.Question.{after, verdict};
ghost use Rattle.question.specs.Refusals.{answer_of};
ghost use Rattle.record.specs.declared.kind.Family.TheVariants.{Requests};
ghost use Rattle.record.specs.Kind.{is_read, is_write, same_write};
ghost use Rattle.record.specs.Record.{request_in, request_fields, read_request, write_request, blank_request};

use crate::kind::{Family, READ, WRITE};
use crate::record::{Record, read, write};
use layout::{Fields, Timestamp};
use question::Refusal;

#[repr(C)]
#[derive(Clone, Copy, Default)]
pub struct Request {
    // A byte and no enum: it is C's.
    pub kind: u8,
    pub group: u8,
    // Document 01's program card: the process that sends the request.
    pub process: u8,
    pub variable: u16,
    pub timestamp: Timestamp,
    pub value: u32,
}

impl Request {
    // No request: what stands where there is none.
    pub fn blank() -> Request
        ensures { result ≡ blank_request }
    {
        Request::default()
    }

    pub fn is_read(self) -> bool
        ensures { result ≡ is_read self }
    {
        self.kind == READ
    }

    // A write that is the same as another.
    pub fn agrees(self, other: Request) -> bool
        ensures { result ≡ is_write self && same_write other self }
    {
        (self.kind == WRITE) & ((other.variable == self.variable) & (other.value == self.value))
    }
}

impl From<Fields> for Request {
    ghost from_gives = { λ f r. r ≡ request_in f };

    fn from(f: Fields) -> Request {
        Request {
            kind: f.kind,
            group: f.group,
            process: f.process,
            variable: f.variable,
            timestamp: f.timestamp,
            value: f.value,
        }
    }
}

impl From<Request> for Fields {
    ghost from_gives = { λ r f. f ≡ request_fields r };

    fn from(r: Request) -> Fields {
        Fields {
            kind: r.kind,
            group: r.group,
            process: r.process,
            replica: 0,
            variable: r.variable,
            spare6: 0,
            timestamp: r.timestamp,
            value: r.value,
            spare20: 0,
        }
    }
}

impl Record for Request {
    const FAMILY: Family = Family::Requests;

    ghost FAMILY = { Requests };

    ghost of = { request_in };

    ghost into = { request_fields };

    ghost from_is = { λ _ _ is. is };

    ghost into_is = { λ _ _ is. is };
}

// `read` at one type: C and the documents call it by this name.
pub fn read_request(k: u8, n: u8, bytes: &[u8]) -> Result<Request, Refusal>
    ensures { answer_of result ≡ read_request k n bytes.now }
{
    read(k, n, bytes)
}

// `write` at one type, by the name that C and the documents have.
pub fn write_request(k: u8, n: u8, r: Request, destination: &mut [u8]) -> Result<(), Refusal>
    ensures answer { answer_of result ≡ verdict (write_request k n r destination.old) }
    ensures content { destination.new ≡ after destination.old (write_request k n r destination.old) }
{
    write(k, n, r, destination)
}
