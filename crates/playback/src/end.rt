// The end of a journal: what is left of its input, and a line for each replica.
ghost use Rattle.std.specs.Prelude.{◌≡◌, cond, [], map, ◌≤◌, eqb};
ghost use Rattle.limits.specs.Limits.{max_replicas};
ghost use Rattle.text.specs.Text.{joined};
ghost use Rattle.text.specs.Page.{page, put_text};
ghost use Rattle.text.specs.Writer.{put};
ghost use Rattle.rules.specs.Lists.{up_to};
ghost use Rattle.rules.specs.declared.Settings.{Settings};
ghost use Rattle.lines.specs.Lines.{refusal_line, card_line};
ghost use Rattle.transcript.specs.Blocks.{play_end};
ghost use Rattle.playback.specs.Arrays.{Arrays, replica_at, unit_in};

use crate::stage::Stage;
use limits::{MAX_K, MAX_REPLICAS, UNIT_VARIABLES, VARIABLES};
use lines::{put_card, put_refusal};
use question::Refusal;
use text::Writer;

// What is left is refused as a record, unless nothing is.
fn put_part(place: u64, left: usize, writer: &mut Writer<'_>)
    ensures { writer.new ≡ put writer.old (cond (eqb left 0) [] (refusal_line place 18)) }
{
    if left != 0 {
        put_refusal(place, u8::from(Refusal::Entry), writer);
    }
}

// A line for each of so many replicas. By an index: it is the place in both arrays, and the number.
fn put_cards(
    count: usize,
    variables: &[u32; UNIT_VARIABLES],
    writes: &[u64; MAX_REPLICAS],
    writer: &mut Writer<'_>,
)
    requires { count ≤ max_replicas }
    ensures { (u : Settings) (a : Arrays) → a.variables ≡ variables.now → a.writes ≡ writes.now → writer.new ≡ put writer.old (joined (map card_line (map (replica_at u a) (up_to count)))) }
{
    for i in 0..count {
        let failed = variables[VARIABLES * i];
        put_card(i as u64 + 1, failed, writes[i], writer);
    }
}

fn put_end(
    stage: Stage,
    rest: &[u8],
    variables: &[u32; UNIT_VARIABLES],
    writes: &[u64; MAX_REPLICAS],
    writer: &mut Writer<'_>,
)
    ensures { (a : Arrays) → a.variables ≡ variables.now → a.writes ≡ writes.now → writer.new ≡ put writer.old (play_end (unit_in stage a) rest.now) }
{
    match stage {
        Stage::First => put_part(1, rest.len(), writer),
        Stage::Playing(u, place) if u.k <= MAX_K => {
            put_part(place, rest.len(), writer);
            put_cards(2 * u.k as usize + 1, variables, writes, writer);
        }
        _ => {}
    }
}

#[tactic(auto, unfolding(text::specs::Writer::put))]
pub fn play_end(
    stage: Stage,
    rest: &[u8],
    variables: &[u32; UNIT_VARIABLES],
    writes: &[u64; MAX_REPLICAS],
    text: &mut [u8],
) -> usize
    ensures { (a : Arrays) → a.variables ≡ variables.now → a.writes ≡ writes.now → page text.new result ≡ put_text (page text.old 0) (play_end (unit_in stage a) rest.now) }
{
    let mut writer = Writer { text, used: 0 };
    put_end(stage, rest, variables, writes, &mut writer);
    writer.used
}
