// The kinds of records, a row for each: what a record of the kind is for, and what it may carry.
ghost use Rattle.std.specs.Prelude.{◌≡◌, false};
ghost use Rattle.record.specs.Kind.{family_of, is_of, row, row_of};

// Document 01's kinds. Bytes and no enum: the kind is C's, and one that is none must be refused.
pub const READ: u8 = 1;

pub const WRITE: u8 = 2;

pub const REPLY: u8 = 3;

pub const HALT: u8 = 4;

// `Neither` and no Option: so the definition `family_of` has it.
#[derive(Clone, Copy, PartialEq, Eq)]
pub enum Family {
    Requests,
    Messages,
    Neither,
}

// A match with ranges, the form that document 01 names.
pub(crate) fn family_of(kind: u8) -> Family
    ensures { result ≡ family_of kind }
{
    match kind {
        READ..=WRITE => Family::Requests,
        REPLY..=HALT => Family::Messages,
        _ => Family::Neither,
    }
}

// Whether a kind is of the family.
pub(crate) fn is_of(family: Family, kind: u8) -> bool
    ensures { result ≡ is_of family kind }
{
    family_of(kind) == family
}

// What a record of a kind may carry.
#[derive(Clone, Copy)]
pub struct Row {
    // The variables that it admits.
    pub least: u16,
    pub greatest: u16,
    // Whether the value, bytes 6 and 7, bytes 20 to 23 may be other than zero.
    pub value: bool,
    pub bytes6: bool,
    pub bytes20: bool,
}

impl Row {
    fn new(least: u16, greatest: u16, value: bool) -> Row
        ensures { result ≡ row least greatest value false false }
    {
        Row {
            least,
            greatest,
            value,
            bytes6: false,
            bytes20: false,
        }
    }
}

// The table by kind; no `From`, which is for a value in another form.
pub(crate) fn row_of(kind: u8) -> Row
    ensures { result ≡ row_of kind }
{
    match kind {
        READ => Row::new(0, 255, false),
        WRITE => Row::new(1, 255, true),
        REPLY => Row::new(0, 255, true),
        HALT => Row::new(0, 0, false),
        _ => Row::new(0, 0, false),
    }
}
