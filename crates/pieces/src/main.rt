// A test of the library `playback`: it plays the journals of crates/journal in pieces of odd sizes, with
// texts of odd room, and must print what crates/journal prints. The arguments name the journals, `-`
// standard input.
#![tactic(auto)]

mod output;
mod player;
mod tables;

use output::{Failure, write_name};
use player::play_journal;
use std::env::FillError;
use std::fs::File;
use std::io::{Read, Write};
use std::rt::{Env, Files};
use std::{io, str};

// The bytes of the longest name.
const NAME: usize = 4096;

// The file of a name. A name that is not UTF-8 cannot be opened.
fn open<R: Files>(rt: &R, name: &[u8]) -> Result<R::File, Failure> {
    str::from_utf8(name)
        .ok()
        .and_then(|path| File::open(rt, path).ok())
        .ok_or(Failure::Unopened)
}

// Standard input is closed after its first journal: a second one is empty.
fn play_stdin<I: Read + Drop>(
    stdin: &mut Option<I>,
    number: usize,
    out: &mut impl Write,
) -> Result<(), Failure> {
    match stdin.take() {
        Some(mut file) => play_journal(&mut file, number, out),
        None => play_journal(&mut io::empty(), number, out),
    }
}

// The journal of a name, under a line with it. `number` is that of the first call.
fn play_named<R: Files, I: Read + Drop>(
    rt: &R,
    stdin: &mut Option<I>,
    name: &[u8],
    number: usize,
    out: &mut impl Write,
) -> Result<(), Failure> {
    if name == b"-".as_slice() {
        write_name(out, name)?;
        return play_stdin(stdin, number, out);
    }
    let mut file = open(rt, name)?;
    write_name(out, name)?;
    play_journal(&mut file, number, out)
}

// The name that is argument i, where there is one. One that is longer than any name names no file.
fn name_of<'a>(rt: &impl Env, i: usize, place: &'a mut [u8; NAME]) -> Option<&'a [u8]> {
    match rt.arg(i, place) {
        Ok(length) => Some(&place[..length]),
        Err(FillError::TooLong) => Some(b""),
        Err(FillError::NotPresent) => None,
    }
}

// The number of an argument is that of its first call. A failure ends the program.
fn main(rt: HostRuntime) {
    let mut stdin = Some(rt.stdin());
    let mut out = rt.stdout();
    let mut err = rt.stderr();
    let mut place = [0u8; NAME];
    for i in 1..usize::MAX {
        let Some(name) = name_of(&rt, i, &mut place) else {
            return;
        };
        if let Err(failure) = play_named(&rt, &mut stdin, name, i, &mut out) {
            let _ = writeln!(err, "pieces: {failure}");
            return;
        }
    }
}
