// The sizes of the pieces and the rooms of the texts: two tables of unlike lengths that are gone round,
// so that each size meets each room.
ghost use Rattle.std.specs.Prelude.{◌≤◌};

// The bytes that are lent for what the calls print.
pub(crate) const TEXT: usize = 65536;

// Parts of a record, one record, just more, and blocks of many; the last prints more than most rooms hold.
const SIZES: [usize; 8] = [1, 39, 40, 41, 7, 119, 1000, 30011];

// The lines of a record may take 8,844 bytes: with one less a call must take nothing.
const ROOMS: [usize; 5] = [8844, 8843, 9000, 20000, TEXT];

// The bytes that call i is lent, or all that are left.
pub(crate) fn piece_size(i: usize) -> usize {
    SIZES[i % SIZES.len()]
}

// The room of its text.
pub(crate) fn text_room(i: usize) -> usize
    ensures { result ≤ 65536 }
{
    ROOMS[i % ROOMS.len()]
}
