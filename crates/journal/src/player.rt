// A journal played from a file. What a read gives is played and its text written before the next read,
// so whoever waits at the end of a live pipe sees the lines of a turn at once.
ghost use Rattle.std.specs.Prelude.{◌≤◌, IfOk, length};

use crate::output::{Failure, write};
use limits::{MAX_REPLICAS, UNIT_PLACES, UNIT_QUEUES, UNIT_VARIABLES};
use playback::{Replicas, Stage};
use std::io::{Read, Write};

// The bytes that are read at a time, 1,600 records, and those of the text that is collected.
const BLOCK: usize = 64000;

const TEXT: usize = 65536;

// The unit that a journal is played on, how far it has come, and the text of a call.
// crates/pieces has such a struct too: playback owns no arrays, since C lends it its own.
#[derive(Drop)]
struct Player {
    stage: Stage,
    pending: [[u64; 4]; UNIT_PLACES],
    counts: [usize; UNIT_QUEUES],
    variables: [u32; UNIT_VARIABLES],
    writes: [u64; MAX_REPLICAS],
    lasts: [u64; MAX_REPLICAS],
    text: [u8; TEXT],
}

impl Player {
    fn new() -> Player {
        Player {
            stage: Stage::First,
            pending: [[0; 4]; UNIT_PLACES],
            counts: [0; UNIT_QUEUES],
            variables: [0; UNIT_VARIABLES],
            writes: [0; MAX_REPLICAS],
            lasts: [0; MAX_REPLICAS],
            text: [0; TEXT],
        }
    }

    // One call, and its text. It gives how many bytes of the block were taken.
    fn play(&mut self, block: &[u8], out: &mut impl Write) -> Result<usize, Failure<'static>>
        ensures { IfOk result (λ taken. taken ≤ length block.now) }
    {
        let mut replicas = Replicas {
            pending: &mut self.pending,
            counts: &mut self.counts,
            variables: &mut self.variables,
            writes: &mut self.writes,
            lasts: &mut self.lasts,
        };
        let b = playback::play_block(self.stage, block, &mut replicas, &mut self.text);
        self.stage = b.stage;
        let text = &self.text[..b.used];
        write(out, text)?;
        Ok(b.taken)
    }

    // All whole records of a block, as often as the text fills. It gives how many bytes are left.
    fn play_all(&mut self, block: &[u8], out: &mut impl Write) -> Result<usize, Failure<'static>>
        ensures { IfOk result (λ left. left ≤ length block.now) }
    {
        let mut left = block;
        loop {
            let taken = self.play(left, out)?;
            if taken == 0 {
                return Ok(left.len());
            }
            left = &left[taken..];
        }
    }

    // The end of the input.
    fn finish(&mut self, rest: &[u8], out: &mut impl Write) -> Result<(), Failure<'static>> {
        let used = playback::play_end(
            self.stage,
            rest,
            &self.variables,
            &self.writes,
            &mut self.text,
        );
        let text = &self.text[..used];
        write(out, text)
    }
}

// Where a read fails there are no cards, and after a refused first record nothing more is read.
pub(crate) fn play_journal(
    file: &mut impl Read,
    out: &mut impl Write,
) -> Result<(), Failure<'static>> {
    let mut player = Player::new();
    let mut block = [0u8; BLOCK];
    let mut held = 0usize;
    // The input may never end.
    for _ in 0..u64::MAX {
        let count = file.read(&mut block[held..]).map_err(|_| Failure::Unread)?;
        if count == 0 {
            return player.finish(&block[..held], out);
        }
        let filled = held + count;
        let left = player.play_all(&block[..filled], out)?;
        held = playback::keep_left(&mut block, filled - left, filled);
        if matches!(player.stage, Stage::Stopped) {
            return Ok(());
        }
    }
    Err(Failure::Uncounted)
}
