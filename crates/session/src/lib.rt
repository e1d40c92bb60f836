// A small session of document 02's A1, brought to a replica, and the figures that it leaves there:
// those of the register machine.
#![tactic(auto)]

ghost use Rattle.std.specs.Prelude.{◌≤◌, ◌≡◌, [], ◌∷◌, map, replicate};
ghost use Rattle.limits.specs.Limits.{record_size};
ghost use Rattle.question.specs.Question.{given};
ghost use Rattle.layout.specs.Layout.{bytes_of};
ghost use Rattle.record.specs.Record.{request_fields, write_request};
ghost use Rattle.rules.specs.Run.{run};
ghost use Rattle.rules.specs.Sample.{asked, wrote_to, deliver_at};
ghost use Rattle.state.specs.State.{state_of};
ghost use Rattle.session.specs.Session.{choices, requests_for, figures_in, figures_of};

use limits::{OUTPUT, RECORD};
use record::{LocalTime, READ, Request, Timestamp, WRITE};
use replica::Replica;
use rules::Settings;

// The failed mark, variable 1 and the writes performed.
#[derive(Clone, Copy)]
pub struct Figures {
    pub failed: u32,
    pub value: u32,
    pub writes: u64,
}

// The digits of a place in base 4, the leftmost heaviest.
pub fn choices(place: u8) -> [u8; 4]
    ensures { result ≡ choices place }
{
    [place / 64 % 4, place / 16 % 4, place / 4 % 4, place % 4]
}

// Two, as the rules have two: `asked` and `wrote_to`.
fn read_at(process: u8, t: u64) -> Request
    ensures { result ≡ asked 1 process t 1 }
{
    Request {
        kind: READ,
        group: 1,
        process,
        variable: 1,
        timestamp: Timestamp(t),
        value: 0,
    }
}

fn write_at(process: u8, t: u64, value: u32) -> Request
    ensures { result ≡ wrote_to 1 1 process t value }
{
    Request {
        kind: WRITE,
        group: 1,
        process,
        variable: 1,
        timestamp: Timestamp(t),
        value,
    }
}

// Writes the record of a request and delivers it, at local time 0.
fn deliver_request(r: Replica, q: Request) -> Replica
    requires { write_request 1 1 q (replicate record_size 0) ≡ given (bytes_of (request_fields q)) }
    ensures { state_of result ≡ (run (state_of r) (deliver_at 0 q ∷ [])).state }
{
    let mut bytes = [0u8; RECORD];
    let _ = record::write_request(1, 1, q, &mut bytes);
    let d = replica::deliver(r, &bytes, LocalTime(0));
    d.replica
}

// What a process chose at a timestamp: a digit of the place, as document 02 numbers the sessions, and no enum.
fn deliver_choice(r: Replica, process: u8, t: u64, choice: u8) -> Replica
    requires { (1 ≤ process) × (process ≤ 2) }
    ensures { state_of result ≡ (run (state_of r) (map (deliver_at 0) (requests_for process t choice))).state }
{
    match choice {
        1 => deliver_request(r, read_at(process, t)),
        2 => deliver_request(r, write_at(process, t, 1)),
        3 => deliver_request(r, write_at(process, t, 2)),
        _ => r,
    }
}

fn figures_in(r: Replica) -> Figures
    ensures { result ≡ figures_in (state_of r).store }
{
    Figures {
        failed: r.variables[0],
        value: r.variables[1],
        writes: r.writes,
    }
}

// δ of the replica that a session is brought to. The figures do not depend on it.
const DELTA: u64 = 5;

// Brings the session of a place to a new replica, and closes it by a step.
pub fn session_figures(place: u8) -> Figures
    ensures { result ≡ figures_of place }
{
    let unit = Settings {
        k: 1,
        groups: 1,
        owner: 1,
        delta: DELTA,
    };
    let c = choices(place);
    let new = replica::make(unit, 1).unwrap();
    let first = deliver_choice(new, 1, 1, c[0]);
    let second = deliver_choice(first, 2, 1, c[1]);
    let third = deliver_choice(second, 1, 2, c[2]);
    let fourth = deliver_choice(third, 2, 2, c[3]);
    let mut sent = [0u8; OUTPUT];
    let closed = replica::step(fourth, LocalTime(DELTA + 1), &mut sent);
    let last = closed.replica;
    figures_in(last)
}
