// A line of a script: a name, and the decimal numbers after it.

// What a line asks for. A line that starts otherwise is only printed.
#[derive(Clone, Copy)]
pub enum Name {
    Comment,
    ReadRequest,
    ReadMessage,
    WriteRequest,
    WriteMessage,
    Make,
    Spoil,
    Deliver,
    Step,
    Clear,
    Hear,
    Vote,
    Halts,
}

// By the letters that tell the names apart: a line that only has these letters asks for the same.
impl From<&[u8]> for Name {
    fn from(line: &[u8]) -> Name {
        match line {
            [b'r', _, _, _, _, b'r', _, ..] => Name::ReadRequest,
            [b'r', _, _, _, _, _, _, ..] => Name::ReadMessage,
            [b'w', _, _, _, _, _, b'r', ..] => Name::WriteRequest,
            [b'w', _, _, _, _, _, _, ..] => Name::WriteMessage,
            [b'm', _, ..] => Name::Make,
            [b's', b'p', ..] => Name::Spoil,
            [b's', _, ..] => Name::Step,
            [b'd', _, ..] => Name::Deliver,
            [b'c', _, ..] => Name::Clear,
            [b'h', b'e', ..] => Name::Hear,
            [b'h', _, ..] => Name::Halts,
            [b'v', _, ..] => Name::Vote,
            _ => Name::Comment,
        }
    }
}

// How many numbers of a line are read, and how many of them may be bytes of a record.
pub(crate) const PLACES: usize = 64;

pub(crate) const BYTES: usize = 62;

// The numbers of a line.
#[derive(Clone, Copy)]
pub struct Numbers<'a>(&'a [u64]);

// x with one more decimal digit, or x where that does not fit.
fn with_digit(x: u64, digit: u8) -> u64 {
    x.checked_mul(10)
        .and_then(|tens| tens.checked_add(u64::from(digit)))
        .unwrap_or(x)
}

// Not `parse`, which refuses a number that does not fit: here the digits that do not fit are left out.
fn number_of(digits: &[u8]) -> u64 {
    digits
        .iter()
        .fold(0, |x, b| with_digit(x, b.saturating_sub(b'0')))
}

fn low_byte(x: u64) -> u8 {
    (x % 256) as u8
}

impl<'a> Numbers<'a> {
    // Puts the numbers of a line into the places that are lent; those past the last place are left out.
    pub(crate) fn of_line(line: &[u8], places: &'a mut [u64; PLACES]) -> Numbers<'a> {
        let numbers = line
            .split(|b| !b.is_ascii_digit())
            .filter(|digits| !digits.is_empty());
        let count = places
            .iter_mut()
            .zip(numbers)
            .map(|(place, digits)| *place = number_of(digits))
            .count();
        Numbers(&places[..count])
    }

    // Number i; 0 where the line has fewer.
    pub(crate) fn number(self, i: usize) -> u64 {
        self.0.get(i).copied().unwrap_or(0)
    }

    pub(crate) fn byte(self, i: usize) -> u8 {
        low_byte(self.number(i))
    }

    pub(crate) fn short(self, i: usize) -> u16 {
        (self.number(i) % 65536) as u16
    }

    pub(crate) fn word(self, i: usize) -> u32 {
        (self.number(i) % 4294967296) as u32
    }

    // The numbers after the first ones; none where the line has no more.
    pub(crate) fn after(self, count: usize) -> Numbers<'a> {
        Numbers(self.0.get(count..).unwrap_or(&[]))
    }

    // Those after the first ones as bytes; None where the line lacks first ones, or more follow than fit.
    pub(crate) fn bytes_after(self, count: usize, places: &mut [u8; BYTES]) -> Option<&[u8]> {
        let numbers = self.0.get(count..)?;
        let bytes = places.get_mut(..numbers.len())?;
        for (byte, number) in bytes.iter_mut().zip(numbers) {
            *byte = low_byte(*number);
        }
        Some(bytes)
    }
}
