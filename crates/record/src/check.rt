// What is asked of a record that is read or written, requests and messages alike.
ghost use Rattle.std.specs.Prelude.{◌≡◌, [], ◌∷◌, ◌++◌, eqb};
ghost use Rattle.limits.specs.Limits.{record_size};
ghost use Rattle.question.specs.Question.{◌else◌, given, worked, ask, unit_questions};
ghost use Rattle.question.specs.Refusals.{answer_of};
ghost use Rattle.record.specs.Record.{has_sender, sender_questions, allows_variable, spares_zero, allows_value, party_questions, content_questions, field_questions, write_questions};

use crate::kind::{Family, is_of, row_of};
use layout::Fields;
use limits::RECORD;
use question::{Refusal, ask, check_unit, is_within};

fn has_sender(family: Family) -> bool
    ensures { result ≡ has_sender family }
{
    family == Family::Messages
}

fn allows_variable(f: Fields) -> bool
    ensures { result ≡ allows_variable f }
{
    let row = row_of(f.kind);
    is_within(row.least.into(), row.greatest.into(), f.variable.into())
}

fn spares_zero(family: Family, f: Fields) -> bool
    ensures { result ≡ spares_zero family f }
{
    let row = row_of(f.kind);
    (has_sender(family) | (f.replica == 0))
        & (row.bytes6 | (f.spare6 == 0))
        & (row.bytes20 | (f.spare20 == 0))
}

fn allows_value(f: Fields) -> bool
    ensures { result ≡ allows_value f }
{
    row_of(f.kind).value | (f.value == 0)
}

// The records of one family, in a unit of k and N; the public functions have the two apart, as C has them.
#[derive(Clone, Copy)]
pub(crate) struct Scope {
    pub family: Family,
    pub k: u8,
    pub n: u8,
}

impl Scope {
    // Question 5, of a message alone.
    #[tactic(auto, unfolding(question::specs::Question::ask))]
    fn check_sender(self, f: Fields) -> Result<(), Refusal>
        ensures { answer_of result ≡ ask (sender_questions self.family self.k f) (given worked) }
    {
        let last = 2 * u64::from(self.k) + 1;
        match self.family {
            Family::Messages => ask(is_within(1, last, f.replica.into()), Refusal::Replica),
            Family::Requests | Family::Neither => Ok(()),
        }
    }

    // Questions 8 and 9, and 5 of a message's sender: whose the record is.
    #[tactic(auto, unfolding(question::specs::Question::ask))]
    fn check_parties(self, f: Fields) -> Result<(), Refusal>
        ensures { answer_of result ≡ ask (party_questions self.family self.k self.n f) (given worked) }
    {
        let last = u64::from(self.k) + 1;
        ask(is_within(1, self.n.into(), f.group.into()), Refusal::Group)?;
        ask(is_within(1, last, f.process.into()), Refusal::Process)?;
        self.check_sender(f)
    }

    // Questions 10, 21 and 22: what the record carries.
    #[tactic(auto, unfolding(question::specs::Question::ask))]
    fn check_content(self, f: Fields) -> Result<(), Refusal>
        ensures { answer_of result ≡ ask (content_questions self.family f) (given worked) }
    {
        ask(allows_variable(f), Refusal::Variable)?;
        ask(spares_zero(self.family, f), Refusal::Spare)?;
        ask(allows_value(f), Refusal::Value)
    }

    // Questions 7, 8, 9, 5 of a message's sender, 10, 21 and 22. A refusal ends them, here and of what
    // the record carries: the compiler makes a branch of it, which costs less than to ask the others too.
    // Inlined, as `check_write`: a call costs more than the questions of a family that is known.
    #[inline]
    #[tactic(auto, using(question::proofs::Questions::asked_yes, question::proofs::Questions::asked_no), unfolding(question::specs::Question::ask, crate::specs::Record::field_questions))]
    pub(crate) fn check_fields(self, f: Fields) -> Result<(), Refusal>
        ensures { answer_of result ≡ ask (field_questions self.family self.k self.n f) (given worked) }
    {
        ask(is_of(self.family, f.kind), Refusal::Kind)?;
        self.check_parties(f)?;
        self.check_content(f)
    }

    // Questions 1, 2 and 6: a record to be read has 24 bytes.
    #[tactic(auto, unfolding(question::specs::Question::ask, question::specs::Question::unit_questions))]
    pub(crate) fn check_length(self, length: usize) -> Result<(), Refusal>
        ensures { answer_of result ≡ ask (unit_questions self.k self.n ++ ((eqb length record_size else 6) ∷ [])) (given worked) }
    {
        check_unit(self.k, self.n)?;
        ask(length == RECORD, Refusal::Length)
    }

    // Questions 1, 2, those of the fields that are to be written, and 15: the room for them.
    #[inline]
    #[tactic(auto, using(question::proofs::Questions::asked_yes, question::proofs::Questions::asked_no))]
    pub(crate) fn check_write(self, f: Fields, room: usize) -> Result<(), Refusal>
        ensures { answer_of result ≡ ask (write_questions self.family self.k self.n f room) (given worked) }
    {
        check_unit(self.k, self.n)?;
        self.check_fields(f)?;
        ask(RECORD <= room, Refusal::Room)
    }
}
