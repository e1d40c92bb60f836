// Cases of a replica, kept from line to line. make: k, N, owner, delta, number. deliver: the local
// time, then the bytes. step: the local time, the output's length; the output is full of 170 before.
// After each the variables 0 and 4, the writes, how many requests of each group are pending, and the last
// local time are shown.
use crate::script::{BYTES, Numbers};
use crate::show::{self, Fields};
use limits::RECORD;
use record::LocalTime;
use replica::Replica;
use rules::Settings;

fn show_replica(rt: &impl Print, r: Replica) {
    let zero = r.variables[0];
    let four = r.variables[4];
    let [a, b, c, d] = r.counts;
    let _ = print!(rt;
        " ; {zero} {four} {} {a} {b} {c} {d} {}",
        r.writes, r.last.0
    );
}

impl From<Numbers<'_>> for Settings {
    fn from(s: Numbers<'_>) -> Settings {
        Settings {
            k: s.byte(0),
            groups: s.byte(1),
            owner: s.byte(2),
            delta: s.number(3),
        }
    }
}

// After a refused making it is the blank replica that is kept.
pub(crate) fn make(rt: &impl Print, s: Numbers) -> Replica {
    let made = replica::make(Settings::from(s), s.byte(4));
    show::answer(rt, made.map(|_| ()));
    made.unwrap_or(Replica::blank())
}

// A replica that no call makes: k, N, owner, delta, number, the four counts and the last local time set.
pub(crate) fn spoil(s: Numbers, r: &mut Replica) {
    r.settings = Settings::from(s);
    r.number = s.byte(4);
    r.counts[0] = s.number(5) as usize;
    r.counts[1] = s.number(6) as usize;
    r.counts[2] = s.number(7) as usize;
    r.counts[3] = s.number(8) as usize;
    r.last = LocalTime(s.number(9));
}

pub(crate) fn deliver(rt: &impl Print, s: Numbers, r: &mut Replica) {
    let mut places = [0; BYTES];
    if let Some(bytes) = s.bytes_after(1, &mut places) {
        let delivered = replica::deliver(*r, bytes, LocalTime(s.number(0)));
        show::answer(rt, delivered.outcome);
        show_replica(rt, delivered.replica);
        *r = delivered.replica;
    }
}

// The message of a record of the output.
fn show_record(rt: &impl Print, r: Replica, bytes: &[u8]) {
    let _ = match record::read_message(r.settings.k, r.settings.groups, bytes) {
        Ok(m) => {
            let fields = Fields(m);
            print!(rt; " : {fields}")
        }
        Err(_) => print!(rt; " :"),
    };
}

// How many bytes at the end of the output are still 170.
fn show_kept(rt: &impl Print, output: &[u8]) {
    let kept = output.iter().rev().take_while(|b| **b == 170).count();
    let _ = print!(rt; " kept {kept}");
}

pub(crate) fn step(rt: &impl Print, s: Numbers, r: &mut Replica) {
    let mut places = [170; 1700];
    let length = (s.number(1) % 1701) as usize;
    let output = &mut places[..length];
    let stepped = replica::step(*r, LocalTime(s.number(0)), output);
    *r = stepped.replica;
    match stepped.answer {
        Ok(count) => {
            let _ = print!(rt; " -> sent {count}");
            for bytes in output.chunks_exact(RECORD).take(count) {
                show_record(rt, stepped.replica, bytes);
            }
        }
        Err(refusal) => show::refused(rt, refusal),
    }
    show_kept(rt, output);
    show_replica(rt, stepped.replica);
}
