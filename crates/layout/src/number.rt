// Big-endian numbers.
ghost use Rattle.std.specs.Prelude.{◌≡◌, cond, leb, ◌+◌, length, take, drop};
ghost use Rattle.layout.specs.Number.{number};

// The number in the eight bytes from `at` on; 0 where they are not all there.
pub fn number8(bytes: &[u8], at: usize) -> u64
    ensures { result ≡ cond (leb (at + 8) (length bytes.now)) (number (take 8 (drop at bytes.now))) 0 }
{
    match bytes.get(at..) {
        Some([a, b, c, d, e, f, g, h, ..]) => u64::from_be_bytes([*a, *b, *c, *d, *e, *f, *g, *h]),
        _ => 0,
    }
}
