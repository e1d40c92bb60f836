// The script, read as a whole.
ghost use Rattle.std.specs.Prelude.{◌≤◌, length};

use std::io::Read;

// Reads until the input ends, a read fails or the bytes are full, and gives how many were read. std has no
// such call: `read_exact` does not tell how many came, and `read_to_end` needs a heap. crates/pieces has it
// too: a program reads its own input, and no library holds what reads (docs/DECISIONS.md).
pub(crate) fn read_full(file: &mut impl Read, text: &mut [u8]) -> usize
    ensures { result ≤ length text.new }
{
    let mut count = 0;
    while let Ok(n @ 1..) = file.read(&mut text[count..]) {
        count += n;
    }
    count
}
