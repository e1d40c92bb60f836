// Runs the cases of document 01 that are to be executed: a script from standard input, a case a line.
// Each line is printed again with what the call answered. That the expected text is what document 01
// means is checked in bench/tests/expected.rs, against the independent model there.
#![tactic(auto)]

mod input;
mod records;
mod replicas;
mod script;
mod show;
mod votes;

use input::read_full;
use record::{Message, Request};
use replica::Replica;
use rules::Settings;
use script::{Name, Numbers, PLACES};
use votes::Heard;

// What is kept from line to line.
#[derive(Drop)]
struct Kept {
    replica: Replica,
    heard: Heard,
}

impl Kept {
    fn new() -> Kept {
        let least = Settings {
            k: 0,
            groups: 1,
            owner: 1,
            delta: 0,
        };
        Kept {
            replica: replica::make(least, 1).unwrap_or(Replica::blank()),
            heard: Heard::none(),
        }
    }

    fn run(&mut self, rt: &impl Print, name: Name, s: Numbers) {
        // A match and no table of functions: what the arms take differs.
        match name {
            Name::Comment => {}
            // Closures: what a function of another crate requires is not known of its bare name.
            Name::ReadRequest => records::read(rt, s, |k, n, b| record::read_request(k, n, b)),
            Name::ReadMessage => records::read(rt, s, |k, n, b| record::read_message(k, n, b)),
            Name::WriteRequest => {
                let r = Request::from(s.after(3));
                records::write(rt, s, |k, n, d| record::write_request(k, n, r, d));
            }
            Name::WriteMessage => {
                let m = Message::from(s.after(3));
                records::write(rt, s, |k, n, d| record::write_message(k, n, m, d));
            }
            Name::Make => self.replica = replicas::make(rt, s),
            Name::Spoil => replicas::spoil(s, &mut self.replica),
            Name::Deliver => replicas::deliver(rt, s, &mut self.replica),
            Name::Step => replicas::step(rt, s, &mut self.replica),
            Name::Clear => self.heard = Heard::none(),
            Name::Hear => self.heard.hear(Message::from(s)),
            Name::Vote => self.heard.show_vote(rt, s),
            Name::Halts => self.heard.show_halts(rt, s),
        }
    }
}

fn run_line(rt: &impl Print, line: &[u8], kept: &mut Kept) {
    // It need not be text.
    let _ = rt.write_all(line);
    let mut places = [0; PLACES];
    kept.run(rt, Name::from(line), Numbers::of_line(line, &mut places));
    let _ = print!(rt; "\n");
}

fn main(rt: HostRuntime) {
    let mut text = [0u8; 131072];
    let filled = read_full(&mut rt.stdin(), &mut text);
    // A last line with no end goes on through the zeros behind it.
    let end = match text[..filled].last() {
        None | Some(b'\n') => filled,
        Some(_) => text.len(),
    };
    let mut kept = Kept::new();
    for line in text[..end].split(|b| *b == b'\n') {
        if !line.is_empty() {
            run_line(&rt, line, &mut kept);
        }
    }
}
