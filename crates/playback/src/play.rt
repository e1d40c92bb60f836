// What a record of the journal does to its unit, and what is printed of it.
ghost use Rattle.std.specs.Prelude.{◌≡◌, ◌+◌, ◌≤◌, length};
ghost use Rattle.limits.specs.Limits.{max_k, entry_size};
ghost use Rattle.text.specs.Writer.{put};
ghost use Rattle.question.specs.Question.{given};
ghost use Rattle.question.specs.Refusals.{answer_of};
ghost use Rattle.entry.specs.Entry.{delivery, turn};
ghost use Rattle.lines.specs.Lines.{answer_lines};
ghost use Rattle.transcript.specs.Journal.{playing, play_read, play_record};
ghost use Rattle.playback.specs.Arrays.{arrays_of, replica_at, SameArrays};
ghost use Rattle.playback.specs.Calls.{AsPrinted};

use crate::number::Number;
use crate::unit::Replicas;
use entry::EntryRead;
use limits::OUTPUT;
use lines::{put_messages, put_refusal};
use question::Refusal;
use record::LocalTime;
use rules::Settings;
use text::Writer;

// A delivery of the request in these bytes. It prints nothing unless it is refused.
fn play_delivery(
    u: Settings,
    place: u64,
    number: Number,
    at: LocalTime,
    request: &[u8],
    replicas: &mut Replicas,
    writer: &mut Writer<'_>,
)
    ensures same_arrays { SameArrays replicas.old replicas.new }
    ensures printed { AsPrinted (play_read u place (replica_at u (arrays_of replicas.old)) (given (delivery number.value at request.now))) (playing u (place + 1) (replica_at u (arrays_of replicas.new))) writer.old writer.new }
{
    if let Err(refusal) = replicas.deliver_to(u, number, request, at) {
        put_refusal(place, u8::from(refusal), writer);
    }
}

// What a record did: the messages that it wrote to `sent`, or its refusal.
fn put_answer(
    u: Settings,
    place: u64,
    answer: Result<usize, Refusal>,
    sent: &[u8],
    writer: &mut Writer<'_>,
)
    ensures { writer.new ≡ put writer.old (answer_lines u.k u.groups place (answer_of answer) sent.now) }
{
    match answer {
        Ok(count) => put_messages(u.k, u.groups, count, sent, writer),
        Err(refusal) => put_refusal(place, u8::from(refusal), writer),
    }
}

// The output is lent, so that it is not cleared for each turn; what stands in it is of no account.
fn play_turn(
    u: Settings,
    place: u64,
    number: Number,
    at: LocalTime,
    replicas: &mut Replicas,
    output: &mut [u8; OUTPUT],
    writer: &mut Writer<'_>,
)
    ensures same_arrays { SameArrays replicas.old replicas.new }
    ensures printed { AsPrinted (play_read u place (replica_at u (arrays_of replicas.old)) (given (turn number.value at))) (playing u (place + 1) (replica_at u (arrays_of replicas.new))) writer.old writer.new }
{
    let answer = replicas.step_of(u, number, at, output);
    put_answer(u, place, answer, output, writer)
}

// A record after the setup. The request of a delivery is its last 24 bytes, and a turn writes its messages
// to the output.
pub(crate) fn play_record(
    u: Settings,
    place: u64,
    bytes: &[u8],
    replicas: &mut Replicas,
    output: &mut [u8; OUTPUT],
    writer: &mut Writer<'_>,
)
    requires small_k { u.k ≤ max_k }
    requires whole_record { length bytes.now ≡ entry_size }
    ensures same_arrays { SameArrays replicas.old replicas.new }
    ensures printed { AsPrinted (play_record (playing u place (replica_at u (arrays_of replicas.old))) bytes.now) (playing u (place + 1) (replica_at u (arrays_of replicas.new))) writer.old writer.new }
{
    match entry::read_entry(u.k, bytes) {
        Ok(EntryRead::Delivery(value, at)) => {
            let number = Number { value };
            play_delivery(u, place, number, at, &bytes[16..], replicas, writer)
        }
        Ok(EntryRead::Turn(value, at)) => {
            let number = Number { value };
            play_turn(u, place, number, at, replicas, output, writer)
        }
        Err(refusal) => put_refusal(place, u8::from(refusal), writer),
    }
}
