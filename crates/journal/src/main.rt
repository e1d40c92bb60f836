// Plays journals of whole units and prints what they did: the one on standard input; or, where there
// are arguments, the file that each names, `-` for standard input, under a line with its name. It
// only reads, hands on to the library `playback`, and writes.
#![tactic(auto)]

mod output;
mod player;

use output::{Failure, write_name};
use player::play_journal;
use std::env::FillError;
use std::fs::File;
use std::io::{Read, Write};
use std::rt::{Env, Files};
use std::str;

// The bytes of the longest name.
const NAME: usize = 4096;

// The file of a name. A name that is not UTF-8 cannot be opened.
fn open<'a, R: Files>(rt: &R, name: &'a [u8]) -> Result<R::File, Failure<'a>> {
    str::from_utf8(name)
        .ok()
        .and_then(|path| File::open(rt, path).ok())
        .ok_or(Failure::Unopened(name))
}

// The journal of a name, under a line with it. Standard input is closed after its first journal: a second
// one cannot be read.
fn play_named<'a, R: Files, I: Read + Drop>(
    rt: &R,
    stdin: &mut Option<I>,
    name: &'a [u8],
    out: &mut impl Write,
) -> Result<(), Failure<'a>> {
    if name == b"-".as_slice() {
        write_name(out, name)?;
        let mut file = stdin.take().ok_or(Failure::Unread)?;
        return play_journal(&mut file, out);
    }
    let mut file = open(rt, name)?;
    write_name(out, name)?;
    play_journal(&mut file, out)
}

// The name that is argument i, where there is one. One that is longer than any name names no file.
fn name_of<'a>(rt: &impl Env, i: usize, place: &'a mut [u8; NAME]) -> Option<&'a [u8]> {
    match rt.arg(i, place) {
        Ok(length) => Some(&place[..length]),
        Err(FillError::TooLong) => Some(b""),
        Err(FillError::NotPresent) => None,
    }
}

// Whether there are arguments behind the program's own name.
fn has_arguments(rt: &impl Env) -> bool {
    !matches!(rt.arg(1, &mut []), Err(FillError::NotPresent))
}

// A failure ends it.
fn main(rt: HostRuntime) {
    let mut out = rt.stdout();
    let mut err = rt.stderr();
    if !has_arguments(&rt) {
        if let Err(failure) = play_journal(&mut rt.stdin(), &mut out) {
            failure.report(&mut err);
        }
        return;
    }
    let mut stdin = Some(rt.stdin());
    let mut place = [0u8; NAME];
    for i in 1..usize::MAX {
        let Some(name) = name_of(&rt, i, &mut place) else {
            return;
        };
        if let Err(failure) = play_named(&rt, &mut stdin, name, &mut out) {
            failure.report(&mut err);
            return;
        }
    }
}
