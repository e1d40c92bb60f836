// A block of records played on a whole unit.
ghost use Rattle.std.specs.Prelude.{◌≡◌, true, false, ◌&&◌, ◌-◌, ◌≤◌, leb, ltb, length};
ghost use Rattle.limits.specs.Limits.{max_k, entry_size, max_place};
ghost use Rattle.text.specs.Page.{page};
ghost use Rattle.transcript.specs.Journal.{fresh, playing};
ghost use Rattle.transcript.specs.Blocks.{lines_size, play_block};
ghost use Rattle.playback.specs.Arrays.{arrays_of, replica_at, is_set_up, unit_in, SameArrays};
ghost use Rattle.playback.specs.Calls.{AsPlayed, AsWritten};

use crate::play::play_record;
use crate::stage::Stage;
use crate::unit::Replicas;
use limits::{
    ENTRY, MAX_K, MAX_PLACE, MAX_REPLICAS, MAX_SENT, OUTPUT, UNIT_QUEUES, UNIT_VARIABLES,
};
use lines::put_refusal;
use rules::Settings;
use text::Writer;

// The most that the lines of one record take: 132 bytes for each message that a step may send.
const LINES: usize = MAX_SENT * 132;

// How far a call came: the stage then, how many bytes of the block were taken, and how many of the text
// are used.
#[derive(Clone, Copy)]
pub struct Block {
    pub stage: Stage,
    pub taken: usize,
    pub used: usize,
}

// There is room for whatever one more record prints, and its place can be counted.
fn goes_on(room: usize, place: u64) -> bool
    ensures { result ≡ leb lines_size room && ltb place max_place }
{
    (LINES <= room) & (place < MAX_PLACE)
}

// The records after the setup, of which the first has this place: the stage then, and how many bytes were
// taken. A pair, since how much of the text is used stands in the writer.
fn play_rest(
    u: Settings,
    first: u64,
    block: &[u8],
    replicas: &mut Replicas,
    writer: &mut Writer<'_>,
) -> (Stage, usize)
    requires small_k { u.k ≤ max_k }
    requires used_within { writer.old.used ≤ length writer.old.text.now }
    ensures same_arrays { SameArrays replicas.old replicas.new }
    ensures played { AsWritten (play_block (length writer.old.text.now - writer.old.used) (playing u first (replica_at u (arrays_of replicas.old))) block.now) (unit_in result.0 (arrays_of replicas.new)) result.1 writer.old writer.new }
    ensures set_up { is_set_up result.0 ≡ true }
{
    let mut output = [0u8; OUTPUT];
    let mut place = first;
    let mut taken: usize = 0;
    // Place and bytes are counted beside the records: the room or the last place may end them. The proof
    // calls the loop by its label.
    'records: for record in block.chunks_exact(ENTRY) {
        if !goes_on(writer.text.len() - writer.used, place) {
            break;
        }
        play_record(u, place, record, replicas, &mut output, writer);
        taken += ENTRY;
        place += 1;
    }
    (Stage::Playing(u, place), taken)
}

// The records from the first on, which sets the unit up: its replicas are new.
fn play_first(block: &[u8], replicas: &mut Replicas, writer: &mut Writer<'_>) -> (Stage, usize)
    requires used_within { writer.old.used ≤ length writer.old.text.now }
    ensures same_arrays { SameArrays replicas.old replicas.new }
    ensures played { AsWritten (play_block (length writer.old.text.now - writer.old.used) fresh block.now) (unit_in result.0 (arrays_of replicas.new)) result.1 writer.old writer.new }
    ensures kept { is_set_up result.0 ≡ false → arrays_of replicas.new ≡ arrays_of replicas.old }
{
    let Some((setup, rest)) = block.split_at_checked(ENTRY) else {
        return (Stage::First, 0);
    };
    if !goes_on(writer.text.len() - writer.used, 1) {
        return (Stage::First, 0);
    }
    match entry::read_setup(setup) {
        Ok(u) => {
            *replicas.counts = [0; UNIT_QUEUES];
            *replicas.variables = [0; UNIT_VARIABLES];
            *replicas.writes = [0; MAX_REPLICAS];
            *replicas.lasts = [0; MAX_REPLICAS];
            let (stage, taken) = play_rest(u, 2, rest, replicas, writer);
            (stage, ENTRY + taken)
        }
        Err(refusal) => {
            put_refusal(1, u8::from(refusal), writer);
            (Stage::Stopped, ENTRY)
        }
    }
}

// The records from this stage on. Where no unit is set up then, the arrays are what they were.
fn play_from(
    stage: Stage,
    block: &[u8],
    replicas: &mut Replicas,
    writer: &mut Writer<'_>,
) -> (Stage, usize)
    requires used_within { writer.old.used ≤ length writer.old.text.now }
    ensures same_arrays { SameArrays replicas.old replicas.new }
    ensures played { AsWritten (play_block (length writer.old.text.now - writer.old.used) (unit_in stage (arrays_of replicas.old)) block.now) (unit_in result.0 (arrays_of replicas.new)) result.1 writer.old writer.new }
    ensures kept { is_set_up result.0 ≡ false → arrays_of replicas.new ≡ arrays_of replicas.old }
{
    match stage {
        Stage::First => play_first(block, replicas, writer),
        Stage::Playing(u, place) if u.k <= MAX_K => play_rest(u, place, block, replicas, writer),
        _ => (stage, 0),
    }
}

// Plays the whole records of a block, one after another, until they are used up or the text has no room
// for what another may print.
#[tactic(auto, unfolding(text::specs::Writer::put))]
pub fn play_block(stage: Stage, block: &[u8], replicas: &mut Replicas, text: &mut [u8]) -> Block
    ensures same_arrays { SameArrays replicas.old replicas.new }
    ensures played { AsPlayed (play_block (length text.old) (unit_in stage (arrays_of replicas.old)) block.now) (unit_in result.stage (arrays_of replicas.new)) result.taken (page text.old 0) (page text.new result.used) }
    ensures kept { is_set_up result.stage ≡ false → arrays_of replicas.new ≡ arrays_of replicas.old }
{
    let mut writer = Writer { text, used: 0 };
    let (stage, taken) = play_from(stage, block, replicas, &mut writer);
    Block {
        stage,
        taken,
        used: writer.used,
    }
}
