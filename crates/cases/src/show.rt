// What a call answered, as text. A failed write is not reported.
use question::Refusal;
use record::{Message, Request};
use rules::{Election, HaltCount};
use std::fmt;

// What a call gave, as a case shows it.
#[derive(Drop)]
pub(crate) struct Given<T>(pub T);

impl fmt::Display for Given<()> {
    fn fmt<W: fmt::Write>(&self, f: &mut fmt::Formatter<W>) -> fmt::Result {
        f.write_str("done")
    }
}

impl fmt::Display for Given<Request> {
    fn fmt<W: fmt::Write>(&self, f: &mut fmt::Formatter<W>) -> fmt::Result {
        let r = self.0;
        write!(
            f,
            "accepted {} {} {} {} {} {}",
            r.kind, r.group, r.process, r.variable, r.timestamp.0, r.value
        )
    }
}

impl fmt::Display for Given<Message> {
    fn fmt<W: fmt::Write>(&self, f: &mut fmt::Formatter<W>) -> fmt::Result {
        let fields = Fields(self.0);
        write!(f, "accepted {fields}")
    }
}

// The sets as bytes.
impl fmt::Display for Given<Election> {
    fn fmt<W: fmt::Write>(&self, f: &mut fmt::Formatter<W>) -> fmt::Result {
        let e = self.0;
        write!(
            f,
            "value {} agreed {} other {} silent {}",
            e.value, e.agreed, e.other, e.silent
        )
    }
}

impl fmt::Display for Given<HaltCount> {
    fn fmt<W: fmt::Write>(&self, f: &mut fmt::Formatter<W>) -> fmt::Result {
        let h = self.0;
        let halt = if h.halt { " halt" } else { "" };
        write!(f, "count {} senders {}{halt}", h.size, h.senders)
    }
}

// The fields of a message.
#[derive(Drop)]
pub(crate) struct Fields(pub Message);

impl fmt::Display for Fields {
    fn fmt<W: fmt::Write>(&self, f: &mut fmt::Formatter<W>) -> fmt::Result {
        let m = self.0;
        write!(
            f,
            "{} {} {} {} {} {} {}",
            m.kind, m.group, m.process, m.replica, m.variable, m.timestamp.0, m.value
        )
    }
}

pub(crate) fn refused(rt: &impl Print, refusal: Refusal) {
    let _ = print!(rt; " -> refused {}", u8::from(refusal));
}

pub(crate) fn answer<T: Drop>(rt: &impl Print, answer: Result<T, Refusal>)
where
    Given<T>: fmt::Display,
{
    match answer {
        Ok(given) => {
            let _ = print!(rt; " -> {}", Given(given));
        }
        Err(refusal) => refused(rt, refusal),
    }
}

pub(crate) fn bytes(rt: &impl Print, bytes: &[u8]) {
    let _ = print!(rt; " :");
    for b in bytes {
        let _ = print!(rt; " {b}");
    }
}
