// A journal played piece by piece: each call is lent some bytes of what is left of the input, and a text
// with some room, as the theorem of the cuts has it (crates/transcript/proofs/Cuts.antt).
ghost use Rattle.std.specs.Prelude.{◌≤◌, IfOk, length};

use crate::output::{Failure, write};
use crate::tables::{TEXT, piece_size, text_room};
use limits::{ENTRY, MAX_REPLICAS, UNIT_PLACES, UNIT_QUEUES, UNIT_VARIABLES, at_most};
use playback::{Replicas, Stage};
use std::io::{Read, Write};

// The longest journal has fewer bytes than this.
const INPUT: usize = 131072;

// In forty calls each size meets each room, so that these never run out.
const CALLS: usize = 1000000;

// The unit that a journal is played on, how far it has come, and the text of a call.
// crates/journal has such a struct too: playback owns no arrays, since C lends it its own.
#[derive(Drop)]
struct Player {
    stage: Stage,
    pending: [[u64; 4]; UNIT_PLACES],
    counts: [usize; UNIT_QUEUES],
    variables: [u32; UNIT_VARIABLES],
    writes: [u64; MAX_REPLICAS],
    lasts: [u64; MAX_REPLICAS],
    text: [u8; TEXT],
}

impl Player {
    fn new() -> Player {
        Player {
            stage: Stage::First,
            pending: [[0; 4]; UNIT_PLACES],
            counts: [0; UNIT_QUEUES],
            variables: [0; UNIT_VARIABLES],
            writes: [0; MAX_REPLICAS],
            lasts: [0; MAX_REPLICAS],
            text: [0; TEXT],
        }
    }

    // Whether the calls are over: no whole record is left, or the first one was refused.
    fn is_over(&self, left: usize) -> bool {
        left < ENTRY || matches!(self.stage, Stage::Stopped)
    }

    // One call, with the size and the room of its number, and its text. It gives how many bytes were taken.
    fn play_piece(
        &mut self,
        call: usize,
        left: &[u8],
        out: &mut impl Write,
    ) -> Result<usize, Failure>
        ensures { IfOk result (λ taken. taken ≤ length left.now) }
    {
        let size = at_most(left.len(), piece_size(call));
        let mut replicas = Replicas {
            pending: &mut self.pending,
            counts: &mut self.counts,
            variables: &mut self.variables,
            writes: &mut self.writes,
            lasts: &mut self.lasts,
        };
        let page = &mut self.text[..];
        let room = &mut page[..text_room(call)];
        let b = playback::play_block(self.stage, &left[..size], &mut replicas, room);
        self.stage = b.stage;
        let text = &self.text[..b.used];
        write(out, text)?;
        Ok(b.taken)
    }

    // The end of the input.
    fn finish(&mut self, rest: &[u8], out: &mut impl Write) -> Result<(), Failure> {
        let used = playback::play_end(
            self.stage,
            rest,
            &self.variables,
            &self.writes,
            &mut self.text,
        );
        let text = &self.text[..used];
        write(out, text)
    }
}

// The number is that of the first call, so that each journal is cut elsewhere.
fn play_input(input: &[u8], number: usize, out: &mut impl Write) -> Result<(), Failure> {
    let mut player = Player::new();
    let mut left = input;
    for call in number..CALLS {
        if player.is_over(left.len()) {
            break;
        }
        let taken = player.play_piece(call, left, out)?;
        left = &left[taken..];
    }
    player.finish(left, out)
}

// Reads until the input ends, a read fails or the bytes are full, and gives how many were read. Of the
// library's, `read_exact` does not say how many, and `read_to_end` needs a heap. crates/cases has it too.
fn read_full(file: &mut impl Read, input: &mut [u8]) -> usize
    ensures { result ≤ length input.new }
{
    let mut count = 0;
    while let Ok(n @ 1..) = file.read(&mut input[count..]) {
        count += n;
    }
    count
}

pub(crate) fn play_journal(
    file: &mut impl Read,
    number: usize,
    out: &mut impl Write,
) -> Result<(), Failure> {
    let mut input = [0u8; INPUT];
    let count = read_full(file, &mut input);
    if count == INPUT {
        return Err(Failure::TooLong);
    }
    play_input(&input[..count], number, out)
}
