// Reading and writing of records.
ghost use Rattle.std.specs.Prelude.{◌≡◌};
ghost use Rattle.question.specs.Question.{after, verdict};
ghost use Rattle.question.specs.Refusals.{answer_of};
ghost use Rattle.record.specs.Record.{read_request, read_message, write_request, write_message};
ghost use Rattle.export.specs.Result.{refusal_of, request_result, message_result};

use question::Refusal;
use record::{Message, Request};

// A struct for each result: a C function can give no generic one.
#[repr(C)]
#[derive(Clone, Copy)]
pub struct RequestResult {
    pub refusal: u8,
    pub request: Request,
}

#[repr(C)]
#[derive(Clone, Copy)]
pub struct MessageResult {
    pub refusal: u8,
    pub message: Message,
}

// No From: neither a Result nor a byte is of this crate.
pub(crate) fn refusal_of<T>(answer: &Result<T, Refusal>) -> u8
    ensures { result ≡ refusal_of (answer_of answer.now) }
{
    match answer {
        Ok(_) => 0,
        Err(refusal) => u8::from(*refusal),
    }
}

// Field by field: a copy of the whole would wait for the reader's narrow stores.
fn request_by_fields(r: Request) -> Request
    ensures { result ≡ r }
{
    let timestamp = r.timestamp;
    Request {
        kind: r.kind,
        group: r.group,
        process: r.process,
        variable: r.variable,
        timestamp,
        value: r.value,
    }
}

// The same of a message.
fn message_by_fields(m: Message) -> Message
    ensures { result ≡ m }
{
    let timestamp = m.timestamp;
    Message {
        kind: m.kind,
        group: m.group,
        process: m.process,
        replica: m.replica,
        variable: m.variable,
        timestamp,
        value: m.value,
    }
}

impl From<Result<Request, Refusal>> for RequestResult {
    ghost from_gives = { λ read given. given ≡ request_result (answer_of read) };

    fn from(read: Result<Request, Refusal>) -> RequestResult {
        RequestResult {
            refusal: refusal_of(&read),
            request: read.map_or(Request::blank(), request_by_fields),
        }
    }
}

impl From<Result<Message, Refusal>> for MessageResult {
    ghost from_gives = { λ read given. given ≡ message_result (answer_of read) };

    fn from(read: Result<Message, Refusal>) -> MessageResult {
        MessageResult {
            refusal: refusal_of(&read),
            message: read.map_or(Message::blank(), message_by_fields),
        }
    }
}

#[unsafe(no_mangle)]
pub extern "C" fn failstop_read_request(k: u8, n: u8, bytes: &[u8]) -> RequestResult
    ensures { result ≡ request_result (read_request k n bytes.now) }
{
    RequestResult::from(record::read_request(k, n, bytes))
}

#[unsafe(no_mangle)]
pub extern "C" fn failstop_read_message(k: u8, n: u8, bytes: &[u8]) -> MessageResult
    ensures { result ≡ message_result (read_message k n bytes.now) }
{
    MessageResult::from(record::read_message(k, n, bytes))
}

#[unsafe(no_mangle)]
pub extern "C" fn failstop_write_request(k: u8, n: u8, r: Request, destination: &mut [u8]) -> u8
    ensures answer { result ≡ refusal_of (verdict (write_request k n r destination.old)) }
    ensures content { destination.new ≡ after destination.old (write_request k n r destination.old) }
{
    refusal_of(&record::write_request(k, n, r, destination))
}

#[unsafe(no_mangle)]
pub extern "C" fn failstop_write_message(k: u8, n: u8, m: Message, destination: &mut [u8]) -> u8
    ensures answer { result ≡ refusal_of (verdict (write_message k n m destination.old)) }
    ensures content { destination.new ≡ after destination.old (write_message k n m destination.old) }
{
    refusal_of(&record::write_message(k, n, m, destination))
}
