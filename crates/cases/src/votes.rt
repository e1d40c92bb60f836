// Cases of the vote. hear: a message, put behind those that were heard. clear: none is heard.
// vote: k, N, group, process, variable, timestamp. halts: k, N, group, process.
use crate::script::Numbers;
use crate::show;
use record::{Message, Timestamp};
use rules::Query;
use vote::LIST_PLACES;

// A list as the calls take it from C: an array, and how many messages of it count.
#[derive(Clone, Copy)]
pub struct Heard {
    list: [Message; LIST_PLACES],
    count: usize,
}

impl Heard {
    pub(crate) fn none() -> Heard {
        let blank = Message::blank();
        let list = [blank; LIST_PLACES];
        Heard { list, count: 0 }
    }

    pub(crate) fn hear(&mut self, m: Message) {
        if let Some(place) = self.list.get_mut(self.count) {
            *place = m;
            self.count += 1;
        }
    }

    pub(crate) fn show_vote(&self, rt: &impl Print, s: Numbers) {
        let q = Query {
            group: s.byte(2),
            process: s.byte(3),
            variable: s.short(4),
            timestamp: Timestamp(s.number(5)),
        };
        let answer = vote::vote_in(s.byte(0), s.byte(1), q, self.list, self.count);
        show::answer(rt, answer);
    }

    pub(crate) fn show_halts(&self, rt: &impl Print, s: Numbers) {
        let (k, n, group, process) = (s.byte(0), s.byte(1), s.byte(2), s.byte(3));
        let answer = vote::count_halts_in(k, n, group, process, self.list, self.count);
        show::answer(rt, answer);
    }
}
