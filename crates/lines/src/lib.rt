// A journal's lines, put into a lent text one behind the other by a writer of the library `text`.
#![tactic(auto)]

ghost use Rattle.std.specs.Prelude.{◌≡◌, [], ◌∷◌, ◌++◌, map};
ghost use Rattle.text.specs.Text.{joined, line};
ghost use Rattle.text.specs.Writer.{put};
ghost use Rattle.record.specs.Record.{read_message};
ghost use Rattle.rules.specs.Run.{accepted, messages_in};
ghost use Rattle.lines.specs.Lines.{card_word, first_four, message_line, refusal_line};

use limits::RECORD;
use record::{Message, REPLY};
use text::Writer;

// The numbers of a reply's line; a halt's line has the first four.
fn numbers_of(m: Message) -> [u64; 6]
    ensures { result ≡ first_four m ++ (m.variable ∷ m.value ∷ []) }
{
    [
        m.replica as u64,
        m.group as u64,
        m.process as u64,
        m.timestamp.0,
        m.variable as u64,
        m.value as u64,
    ]
}

fn put_message(m: Message, writer: &mut Writer<'_>)
    ensures { writer.new ≡ put writer.old (message_line m) }
{
    let numbers = numbers_of(m);
    if m.kind == REPLY {
        writer.put_line(b"reply", &numbers);
    } else {
        writer.put_line(b"halt", &numbers[..4]);
    }
}

// A line for each of the first `count` records that is a message.
pub fn put_messages(k: u8, groups: u8, count: usize, sent: &[u8], writer: &mut Writer<'_>)
    ensures { writer.new ≡ put writer.old (joined (map message_line (messages_in k groups count sent.now))) }
{
    for bytes in sent.chunks_exact(RECORD).take(count) {
        if let Ok(m) = record::read_message(k, groups, bytes) {
            put_message(m, writer);
        }
    }
}

// The line of a record that is refused: its place, and the number.
pub fn put_refusal(place: u64, number: u8, writer: &mut Writer<'_>)
    ensures { writer.new ≡ put writer.old (refusal_line place number) }
{
    writer.put_line(b"no", &[place, number as u64]);
}

// The number of a replica, its failed mark, and the writes performed.
pub fn put_card(number: u64, failed: u32, writes: u64, writer: &mut Writer<'_>)
    ensures { writer.new ≡ put writer.old (line card_word (number ∷ failed ∷ writes ∷ [])) }
{
    writer.put_line(b"card", &[number, failed as u64, writes]);
}
