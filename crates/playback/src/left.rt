// The bytes of a block that no call took: they go before what is read next.
ghost use Rattle.std.specs.Prelude.{◌≡◌, ◌++◌, ◌-◌, length, take, drop};

use limits::at_most;

// Moves the bytes from a place up to an end to the front of the block, and gives how many they are. The
// bytes behind those stay.
pub fn keep_left(block: &mut [u8], from: usize, to: usize) -> usize
    ensures count { result ≡ length (take (to - from) (drop from block.old)) }
    ensures block { block.new ≡ take (to - from) (drop from block.old) ++ drop result block.old }
{
    let end = at_most(block.len(), to);
    if end <= from {
        return 0;
    }
    block.copy_within(from..end, 0);
    end - from
}
