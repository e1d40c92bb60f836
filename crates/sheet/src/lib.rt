// The drill sheet of document 02's A1: a line for each small session (crates/session).
#![tactic(auto)]

ghost use Rattle.std.specs.Prelude.{◌≡◌};
ghost use Rattle.question.specs.Question.{after, verdict};
ghost use Rattle.question.specs.Refusals.{answer_of};
ghost use Rattle.text.specs.Writer.{put};
ghost use Rattle.sheet.specs.Sheet.{digits_word, session_line, sheet, write_sheet};

use question::{Refusal, ask};
use text::Writer;

// Its bytes: 10 lines of 13, 90 of 14 and 156 of 15.
pub const SHEET: usize = 3730;

// A space and the digits of a place.
fn digits_word(place: u8) -> [u8; 5]
    ensures { result ≡ digits_word place }
{
    let c = session::choices(place);
    [b' ', b'0' + c[0], b'0' + c[1], b'0' + c[2], b'0' + c[3]]
}

// The line of a session.
fn put_session(place: u8, writer: &mut Writer<'_>)
    ensures { writer.new ≡ put writer.old (session_line place) }
{
    let f = session::session_figures(place);
    writer.put_decimal(place as u64);
    writer.put_line(
        &digits_word(place),
        &[f.failed as u64, f.value as u64, f.writes],
    );
}

// All lines.
fn put_sessions(writer: &mut Writer<'_>)
    ensures { writer.new ≡ put writer.old sheet }
{
    for place in 0..=255u8 {
        put_session(place, writer);
    }
}

// Writes the sheet to the start of the destination, or refuses and writes nothing.
pub fn write_sheet(destination: &mut [u8]) -> Result<(), Refusal>
    ensures answer { answer_of result ≡ verdict (write_sheet destination.old) }
    ensures content { destination.new ≡ after destination.old (write_sheet destination.old) }
{
    ask(SHEET <= destination.len(), Refusal::Room)?;
    let mut writer = Writer {
        text: destination,
        used: 0,
    };
    put_sessions(&mut writer);
    Ok(())
}
