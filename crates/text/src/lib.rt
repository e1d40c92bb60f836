// Text put into lent bytes, one piece behind the other; what does not fit is cut off.
#![tactic(auto)]

ghost use Rattle.std.specs.Prelude.{◌≡◌};
ghost use Rattle.text.specs.Text.{decimal, line};
ghost use Rattle.text.specs.Writer.{put};

use limits::at_most;

// A lent text, of which so many of the first bytes are used: no String, since there is no heap. Any count may
// stand in it; where it is past the text nothing is put.
#[derive(Drop)]
pub struct Writer<'a> {
    pub text: &'a mut [u8],
    pub used: usize,
}

impl Writer<'_> {
    #[inline(always)]
    fn put_word(&mut self, word: &[u8])
        ensures { self.new ≡ put self.old word.now }
    {
        let used = self.used;
        if self.text.len() < used {
            return;
        }
        let count = at_most(self.text.len() - used, word.len());
        self.text[used..used + count].copy_from_slice(&word[..count]);
        self.used += count;
    }

    // The digits are those of the kit's `io::decimal`: `Display` needs a formatter and a result to drop, and
    // is no plainer.
    pub fn put_decimal(&mut self, n: u64)
        ensures { self.new ≡ put self.old (decimal n) }
    {
        let mut digits = [0u8; 20];
        let count = io::decimal(n, &mut digits);
        self.put_word(&digits[..count]);
    }

    // A word, the numbers, each with a space before it, and a line end. Inlined into callers, whose words are
    // constants, it copies by `memcpy`; by itself by `memmove`, a name that the archive for C would need besides.
    #[inline(always)]
    pub fn put_line(&mut self, word: &[u8], numbers: &[u64])
        ensures { self.new ≡ put self.old (line word.now numbers.now) }
    {
        self.put_word(word);
        for &n in numbers {
            self.put_word(b" ");
            self.put_decimal(n);
        }
        self.put_word(b"\n");
    }
}
