// The questions that more than one call asks: of the settings of a unit (making, and the setup of a
// journal), and of a local time (delivery, and step).
#![tactic(auto)]

ghost use Rattle.std.specs.Prelude.{◌≡◌};
ghost use Rattle.question.specs.Question.{given, worked, ask};
ghost use Rattle.question.specs.Refusals.{answer_of};
ghost use Rattle.rules.specs.Replica.{settings_questions, time_questions};

use limits::{MAX_DELTA, MAX_TIME};
use question::{Refusal, ask, check_unit, is_within};
use record::LocalTime;
use rules::Settings;

// Questions 1 to 4.
pub fn check_settings(u: Settings) -> Result<(), Refusal>
    ensures { answer_of result ≡ ask (settings_questions u) (given worked) }
{
    check_unit(u.k, u.groups)?;
    ask(
        is_within(1, u.groups as u64, u.owner as u64),
        Refusal::Owner,
    )?;
    ask(u.delta <= MAX_DELTA, Refusal::Delta)
}

// Questions 12 and 13.
pub fn check_time(last: LocalTime, at: LocalTime) -> Result<(), Refusal>
    ensures { answer_of result ≡ ask (time_questions last at) (given worked) }
{
    ask(at <= LocalTime(MAX_TIME), Refusal::LatestTime)?;
    ask(last <= at, Refusal::EarlierTime)
}
