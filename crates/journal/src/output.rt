// What is written: to standard output (`out`) the text, to standard error (`err`) why the program ends
// before its last journal.
//
// Much of this file and of `main` stands in crates/pieces too: around a call of the system it promises
// nothing, so no library holds it (docs/DECISIONS.md).
use std::io::Write;

// Why it ends. No `Display`, which writes text: the bytes of a name are written as they are.
#[derive(Clone, Copy)]
pub(crate) enum Failure<'a> {
    Unopened(&'a [u8]),
    Unread,
    Unwritten,
    // So many reads that they are no longer counted. Nothing is said of it.
    Uncounted,
}

// Where standard error cannot be written either, nobody is left to be told.
fn say(err: &mut impl Write, words: &[u8]) {
    let _ = err.write_all(words);
}

impl<'a> Failure<'a> {
    pub(crate) fn report(self, err: &mut impl Write) {
        match self {
            Failure::Unopened(name) => {
                say(err, b"journal: cannot open ");
                say(err, name);
                say(err, b"\n");
            }
            Failure::Unread => say(err, b"journal: cannot read\n"),
            Failure::Unwritten => say(err, b"journal: cannot write\n"),
            Failure::Uncounted => {}
        }
    }
}

pub(crate) fn write(out: &mut impl Write, bytes: &[u8]) -> Result<(), Failure<'static>> {
    out.write_all(bytes).map_err(|_| Failure::Unwritten)
}

// The line above the journal of a named file.
pub(crate) fn write_name(out: &mut impl Write, name: &[u8]) -> Result<(), Failure<'static>> {
    write(out, b"== ")?;
    write(out, name)?;
    write(out, b"\n")
}
