// The vote and the halt count, on a list of messages with its count.
ghost use Rattle.std.specs.Prelude.{◌≡◌, take};
ghost use Rattle.question.specs.Refusals.{answer_of};
ghost use Rattle.rules.specs.Vote.{vote, halt_count};
ghost use Rattle.export.specs.Result.{vote_result, halt_result};

use crate::records::refusal_of;
use question::Refusal;
use record::Message;
use rules::{Election, HaltCount, Query};
use vote::LIST_PLACES;

// The first `count` messages.
#[repr(C)]
#[derive(Clone, Copy)]
pub struct List {
    pub messages: [Message; LIST_PLACES],
    pub count: usize,
}

#[repr(C)]
#[derive(Clone, Copy)]
pub struct VoteResult {
    pub refusal: u8,
    pub election: Election,
}

#[repr(C)]
#[derive(Clone, Copy)]
pub struct HaltResult {
    pub refusal: u8,
    pub count: HaltCount,
}

impl From<Result<Election, Refusal>> for VoteResult {
    ghost from_gives = { λ vote given. given ≡ vote_result (answer_of vote) };

    fn from(vote: Result<Election, Refusal>) -> VoteResult {
        let none = Election {
            value: 0,
            agreed: 0,
            other: 0,
            silent: 0,
        };
        VoteResult {
            refusal: refusal_of(&vote),
            election: vote.unwrap_or(none),
        }
    }
}

impl From<Result<HaltCount, Refusal>> for HaltResult {
    ghost from_gives = { λ count given. given ≡ halt_result (answer_of count) };

    fn from(count: Result<HaltCount, Refusal>) -> HaltResult {
        let none = HaltCount {
            senders: 0,
            size: 0,
            halt: false,
        };
        HaltResult {
            refusal: refusal_of(&count),
            count: count.unwrap_or(none),
        }
    }
}

#[unsafe(no_mangle)]
pub extern "C" fn failstop_vote(k: u8, n: u8, q: Query, list: List) -> VoteResult
    ensures { result ≡ vote_result (vote k n q (take list.count list.messages)) }
{
    let messages = list.messages;
    VoteResult::from(vote::vote_in(k, n, q, messages, list.count))
}

#[unsafe(no_mangle)]
pub extern "C" fn failstop_count_halts(
    k: u8,
    n: u8,
    group: u8,
    process: u8,
    list: List,
) -> HaltResult
    ensures { result ≡ halt_result (halt_count k n group process (take list.count list.messages)) }
{
    let messages = list.messages;
    HaltResult::from(vote::count_halts_in(k, n, group, process, messages, list.count))
}
