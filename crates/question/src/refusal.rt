// What a call may refuse, one refusal for each question that document 01 and 02 ask.
ghost use Rattle.std.specs.Prelude.{◌≡◌};
ghost use Rattle.question.specs.Refusals.{number_of};

// In the order of their numbers.
#[derive(Clone, Copy, Debug, PartialEq, Eq)]
pub enum Refusal {
    K,
    Groups,
    Owner,
    Delta,
    Replica,
    Length,
    Kind,
    Group,
    Process,
    Variable,
    // Document 01's 11. Document 02's A5 asks two questions in its place: no call gives it.
    Zeros,
    LatestTime,
    EarlierTime,
    Pending,
    Room,
    List,
    Quorum,
    Entry,
    EntryKind,
    EntryZeros,
    Spare,
    Value,
}

impl From<Refusal> for u8 {
    ghost from_gives = { λ refusal number. number ≡ number_of refusal };

    fn from(refusal: Refusal) -> u8 {
        match refusal {
            Refusal::K => 1,
            Refusal::Groups => 2,
            Refusal::Owner => 3,
            Refusal::Delta => 4,
            Refusal::Replica => 5,
            Refusal::Length => 6,
            Refusal::Kind => 7,
            Refusal::Group => 8,
            Refusal::Process => 9,
            Refusal::Variable => 10,
            Refusal::Zeros => 11,
            Refusal::LatestTime => 12,
            Refusal::EarlierTime => 13,
            Refusal::Pending => 14,
            Refusal::Room => 15,
            Refusal::List => 16,
            Refusal::Quorum => 17,
            Refusal::Entry => 18,
            Refusal::EntryKind => 19,
            Refusal::EntryZeros => 20,
            Refusal::Spare => 21,
            Refusal::Value => 22,
        }
    }
}
