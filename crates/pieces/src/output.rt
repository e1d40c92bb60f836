// What is written: to standard output (`out`) the text, to standard error why the program ends before its
// last journal.
//
// Much of this file and of `main` stands in crates/journal too: around a call of the system it promises
// nothing, so no library holds it (docs/DECISIONS.md).
use std::fmt;
use std::io::Write;

// Why it ends.
#[derive(Clone, Copy)]
pub(crate) enum Failure {
    Unopened,
    TooLong,
    Unwritten,
}

impl fmt::Display for Failure {
    fn fmt<W: fmt::Write>(&self, f: &mut fmt::Formatter<W>) -> fmt::Result {
        f.write_str(match self {
            Failure::Unopened => "cannot open a file",
            Failure::TooLong => "too long a journal",
            Failure::Unwritten => "cannot write",
        })
    }
}

pub(crate) fn write(out: &mut impl Write, bytes: &[u8]) -> Result<(), Failure> {
    out.write_all(bytes).map_err(|_| Failure::Unwritten)
}

// The line above a journal.
pub(crate) fn write_name(out: &mut impl Write, name: &[u8]) -> Result<(), Failure> {
    write(out, b"== ")?;
    write(out, name)?;
    write(out, b"\n")
}
