// What a 40-byte record of the journal means.
ghost use Rattle.std.specs.Prelude.{◌≡◌, [], ◌∷◌, eqb, length, IsOk};
ghost use Rattle.limits.specs.Limits.{entry_size};
ghost use Rattle.question.specs.Question.{◌else◌, given, worked, ask};
ghost use Rattle.question.specs.Refusals.{answer_of};
ghost use Rattle.rules.specs.Lists.{every};
ghost use Rattle.entry.specs.Entry.{settings_in, read_setup, read_entry, entry_answer};

use checks::check_settings;
use limits::ENTRY;
use question::{Refusal, ask, is_within};
use record::{LocalTime, number8};
use rules::Settings;

// Bytes of the format and no enum: one that is none must be refused.
const SETUP: u8 = 1;

const DELIVERY: u8 = 2;

const TURN: u8 = 3;

// The replica and the local time; the request of a delivery is bytes 16 to 39.
#[derive(Clone, Copy)]
pub enum EntryRead {
    Delivery(u8, LocalTime),
    Turn(u8, LocalTime),
}

fn is_zero(bytes: &[u8]) -> bool
    ensures { result ≡ every (λ b. eqb b 0) bytes.now }
{
    bytes.iter().all(|b| *b == 0)
}

// Question 18. Not by `ask`: that an Ok means a whole record is promised too.
fn check_size(bytes: &[u8]) -> Result<(), Refusal>
    ensures asked { answer_of result ≡ ask ((eqb (length bytes.now) entry_size else 18) ∷ []) (given worked) }
    ensures whole { IsOk result → length bytes.now ≡ entry_size }
{
    if bytes.len() == ENTRY {
        Ok(())
    } else {
        Err(Refusal::Entry)
    }
}

fn settings_in(bytes: &[u8]) -> Settings
    requires { length bytes.now ≡ entry_size }
    ensures { result ≡ settings_in bytes.now }
{
    Settings {
        k: bytes[16],
        groups: bytes[17],
        owner: bytes[18],
        delta: number8(bytes, 8),
    }
}

// The first record.
pub fn read_setup(bytes: &[u8]) -> Result<Settings, Refusal>
    ensures { answer_of result ≡ read_setup bytes.now }
{
    check_size(bytes)?;
    ask(bytes[0] == SETUP, Refusal::EntryKind)?;
    ask(bytes[1] == 0, Refusal::Replica)?;
    let zero = is_zero(&bytes[2..8]) & is_zero(&bytes[19..ENTRY]);
    ask(zero, Refusal::EntryZeros)?;
    let settings = settings_in(bytes);
    check_settings(settings)?;
    Ok(settings)
}

// A record after the setup of a unit with this k.
pub fn read_entry(k: u8, bytes: &[u8]) -> Result<EntryRead, Refusal>
    ensures { entry_answer bytes.now result ≡ read_entry k bytes.now }
{
    check_size(bytes)?;
    let kind = bytes[0];
    let number = bytes[1];
    let known = is_within(DELIVERY as u64, TURN as u64, kind as u64);
    ask(known, Refusal::EntryKind)?;
    let there = is_within(1, 2 * k as u64 + 1, number as u64);
    ask(there, Refusal::Replica)?;
    let zero = is_zero(&bytes[2..8]) & ((kind == DELIVERY) | is_zero(&bytes[16..ENTRY]));
    ask(zero, Refusal::EntryZeros)?;
    let at = LocalTime(number8(bytes, 8));
    if kind == DELIVERY {
        return Ok(EntryRead::Delivery(number, at));
    }
    Ok(EntryRead::Turn(number, at))
}
