// What a ballot says.
ghost use Rattle.std.specs.Prelude.{◌+◌, ◌*◌, ◌≤◌, ◌≡◌};
ghost use Rattle.limits.specs.Limits.{max_k};
ghost use Rattle.question.specs.Question.{given, worked, ask};
ghost use Rattle.question.specs.Refusals.{answer_of};
ghost use Rattle.rules.specs.Sets.{has, set_of};
ghost use Rattle.rules.specs.Vote.{halts_by};
ghost use Rattle.ballot.specs.Ballot.{gave, election_in, elect_in, ballot_questions, vote_on, halt_count_on};

use crate::ballot::Ballot;
use crate::sets::Replicas;
use question::{Refusal, ask, check_unit};
use rules::{Election, HaltCount};

// k is a unit's once question 1 was asked, in `check`: a type for that would be asked for in each line here.
impl Ballot {
    // Those of the unit's replicas that gave a value.
    fn agreed(self, k: u8, value: u32) -> Replicas
        requires { k ≤ max_k }
        ensures { result.0 ≡ set_of (gave self value) (2 * k + 1) }
    {
        let mut set = Replicas(0);
        for i in 1..=2 * k as usize + 1 {
            if self.heard.has(i) & (self.values[i] == value) {
                set = set.with(i);
            }
        }
        set
    }

    // The unit's replicas by what they gave.
    fn election(self, k: u8, value: u32) -> Election
        requires { k ≤ max_k }
        ensures { result ≡ election_in k self value }
    {
        let unit = Replicas::of_unit(k).0;
        let heard = self.heard.0 & unit;
        let agreed = self.agreed(k, value).0;
        Election {
            value,
            agreed,
            other: heard ^ agreed,
            silent: unit ^ heard,
        }
    }

    // The value that at least k + 1 replicas gave. No two values have so many: any order finds it.
    fn elect(self, k: u8) -> Result<Election, Refusal>
        requires { k ≤ max_k }
        ensures { answer_of result ≡ elect_in k self (2 * k + 1) }
    {
        let enough = k as u32 + 1;
        for i in (1..=2 * k as usize + 1).rev() {
            let e = self.election(k, self.values[i]);
            if self.heard.has(i) & (enough <= e.agreed.count_ones()) {
                return Ok(e);
            }
        }
        Err(Refusal::Quorum)
    }

    // The unit's replicas that sent a halt.
    fn halts(self, k: u8) -> HaltCount
        requires { k ≤ max_k }
        ensures { result ≡ halts_by k (has self.halted.0) }
    {
        let senders = self.halted.0 & Replicas::of_unit(k).0;
        let size = senders.count_ones() as u8;
        HaltCount {
            senders,
            size,
            halt: k + 1 <= size,
        }
    }

    // Questions 1, 2 and 16.
    fn check(self, k: u8, n: u8) -> Result<(), Refusal>
        ensures { answer_of result ≡ ask (ballot_questions k n self) (given worked) }
    {
        check_unit(k, n)?;
        ask(self.short, Refusal::List)
    }

    pub fn answer_vote(self, k: u8, n: u8) -> Result<Election, Refusal>
        ensures { answer_of result ≡ vote_on k n self }
    {
        self.check(k, n)?;
        self.elect(k)
    }

    pub fn answer_halts(self, k: u8, n: u8) -> Result<HaltCount, Refusal>
        ensures { answer_of result ≡ halt_count_on k n self }
    {
        self.check(k, n)?;
        Ok(self.halts(k))
    }
}
