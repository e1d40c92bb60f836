// Cases of records. Reading: k, N, then the bytes. Writing: k, N, the destination's length, then the
// fields; the destination is full of 170 before, and is shown after.
use crate::script::{BYTES, Numbers};
use crate::show::{self, Given};
use question::Refusal;
use record::{Message, Request, Timestamp};
use std::fmt;

// Shows what a call read.
pub(crate) fn read<T: Drop, F: Fn(u8, u8, &[u8]) -> Result<T, Refusal>>(
    rt: &impl Print,
    s: Numbers,
    read: F,
)
where
    Given<T>: fmt::Display,
    requires { F.IsAlwaysCallable read }
{
    let mut places = [0; BYTES];
    if let Some(bytes) = s.bytes_after(2, &mut places) {
        show::answer(rt, read(s.byte(0), s.byte(1), bytes));
    }
}

// Shows what a call answered, and what it wrote.
pub(crate) fn write<F: Fn(u8, u8, &mut [u8]) -> Result<(), Refusal>>(
    rt: &impl Print,
    s: Numbers,
    write: F,
)
    requires { F.IsAlwaysCallable write }
{
    let mut places = [170; 32];
    let length = (s.number(2) % 33) as usize;
    let destination = &mut places[..length];
    show::answer(rt, write(s.byte(0), s.byte(1), destination));
    show::bytes(rt, destination);
}

impl From<Numbers<'_>> for Request {
    fn from(s: Numbers<'_>) -> Request {
        let timestamp = Timestamp(s.number(4));
        Request {
            kind: s.byte(0),
            group: s.byte(1),
            process: s.byte(2),
            variable: s.short(3),
            timestamp,
            value: s.word(5),
        }
    }
}

impl From<Numbers<'_>> for Message {
    fn from(s: Numbers<'_>) -> Message {
        let timestamp = Timestamp(s.number(5));
        Message {
            kind: s.byte(0),
            group: s.byte(1),
            process: s.byte(2),
            replica: s.byte(3),
            variable: s.short(4),
            timestamp,
            value: s.word(6),
        }
    }
}
