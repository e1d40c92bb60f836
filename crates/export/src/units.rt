// Journals in blocks: a whole unit in arrays that are lent, and a player beside them that goes by value.
ghost use Rattle.std.specs.Prelude.{◌≡◌, false, length};
ghost use Rattle.text.specs.Page.{page, put_text};
ghost use Rattle.transcript.specs.Blocks.{play_block, play_end};
ghost use Rattle.playback.specs.Arrays.{Arrays, arrays, is_set_up, unit_in};
ghost use Rattle.playback.specs.Calls.{AsPlayed};
ghost use Rattle.export.specs.Stages.{stage_of, blank_player, player_of};

use limits::{MAX_REPLICAS, UNIT_PLACES, UNIT_QUEUES, UNIT_VARIABLES};
use playback::{Replicas, Stage};
use rules::Settings;

#[repr(C)]
#[derive(Clone, Copy)]
pub struct Player {
    // 0 before the first record, 1 set up; any other number counts as stopped.
    pub stage: u8,
    pub settings: Settings,
    // That of the next record.
    pub place: u64,
}

#[repr(C)]
#[derive(Clone, Copy)]
pub struct BlockResult {
    pub player: Player,
    pub taken: usize,
    pub used: usize,
}

impl From<Player> for Stage {
    ghost from_gives = { λ p stage. stage ≡ stage_of p };

    fn from(p: Player) -> Stage {
        match p.stage {
            0 => Stage::First,
            1 => Stage::Playing(p.settings, p.place),
            _ => Stage::Stopped,
        }
    }
}

// Zeros beside the stage.
fn blank_player(stage: u8) -> Player
    ensures { result ≡ blank_player stage }
{
    Player {
        stage,
        settings: Settings {
            k: 0,
            groups: 0,
            owner: 0,
            delta: 0,
        },
        place: 0,
    }
}

impl From<Stage> for Player {
    ghost from_gives = { λ stage p. p ≡ player_of stage };

    fn from(stage: Stage) -> Player {
        match stage {
            Stage::First => blank_player(0),
            Stage::Playing(settings, place) => Player {
                stage: 1,
                settings,
                place,
            },
            Stage::Stopped => blank_player(2),
        }
    }
}

#[unsafe(no_mangle)]
pub extern "C" fn failstop_play_block(
    p: Player,
    block: &[u8],
    pending: &mut [[u64; 4]; UNIT_PLACES],
    counts: &mut [usize; UNIT_QUEUES],
    variables: &mut [u32; UNIT_VARIABLES],
    writes: &mut [u64; MAX_REPLICAS],
    lasts: &mut [u64; MAX_REPLICAS],
    text: &mut [u8],
) -> BlockResult
    ensures player { result.player ≡ player_of (stage_of result.player) }
    ensures played { AsPlayed (play_block (length text.old) (unit_in (stage_of p) (arrays pending.old counts.old variables.old writes.old lasts.old)) block.now) (unit_in (stage_of result.player) (arrays pending.new counts.new variables.new writes.new lasts.new)) result.taken (page text.old 0) (page text.new result.used) }
    ensures kept { is_set_up (stage_of result.player) ≡ false → arrays pending.new counts.new variables.new writes.new lasts.new ≡ arrays pending.old counts.old variables.old writes.old lasts.old }
{
    let mut replicas = Replicas {
        pending,
        counts,
        variables,
        writes,
        lasts,
    };
    let b = playback::play_block(Stage::from(p), block, &mut replicas, text);
    BlockResult {
        player: Player::from(b.stage),
        taken: b.taken,
        used: b.used,
    }
}

#[unsafe(no_mangle)]
pub extern "C" fn failstop_play_end(
    p: Player,
    rest: &[u8],
    variables: &[u32; UNIT_VARIABLES],
    writes: &[u64; MAX_REPLICAS],
    text: &mut [u8],
) -> usize
    ensures { (a : Arrays) → a.variables ≡ variables.now → a.writes ≡ writes.now → page text.new result ≡ put_text (page text.old 0) (play_end (unit_in (stage_of p) a) rest.now) }
{
    playback::play_end(Stage::from(p), rest, variables, writes, text)
}
