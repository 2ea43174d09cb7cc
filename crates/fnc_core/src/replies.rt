// The replies that are due at a moment.

ghost use Rattle.std.specs.Prelude.{◌≡◌, true, false, Some};
ghost use Rattle.std.specs.Bool.{OnTrue, OnFalse};
ghost use Rattle.fnc_journal.specs.Operations.{first_due, settled};
ghost use Rattle.fnc_ops.specs.Stands.{IsFirstDue};
ghost use Rattle.fnc_core.specs.Between.{Between, Rests, AddsReply, GaveReplies};

use crate::parts::Parts;
use crate::queueing::requeue;
use fnc_journal::{Entry, Event, Reply};
use fnc_ops::Due;

impl Parts {
    /// Replies to the least request that waits for the operation to which an answer is due first. With the last
    /// one the operation is closed, and waits for no try.
    fn reply(&mut self, moment: u64, due: Due)
        requires between { Between moment self.old }
        requires first { IsFirstDue self.old.history moment (Some due) (first_due self.old.history moment) }
        ensures between { Between moment self.new }
        ensures adds { AddsReply moment self.old self.new }
    {
        if let Some(req) = self.ops.next_member(due.req) {
            requeue(&self.journal, &self.ops, &mut self.queue, due.req);
            self.journal.push(Entry {
                moment,
                event: Event::Reply(Reply {
                    req,
                    answer: due.answer,
                }),
            });
        }
    }

    /// Gives the reply that is due first at a moment. False where none is.
    fn reply_next(&mut self, moment: u64) -> bool
        requires { Between moment self.old }
        ensures between { Between moment self.new }
        ensures some { OnTrue result (AddsReply moment self.old self.new) }
        ensures none { OnFalse result (self.new ≡ self.old) }
        ensures unsettled { OnTrue result (settled self.old.history moment ≡ false) }
        ensures settled { OnFalse result (settled self.new.history moment ≡ true) }
    {
        match self.ops.due(moment) {
            None => false,
            Some(due) => {
                self.reply(moment, due);
                true
            }
        }
    }

    /// Gives all replies that are due at a moment.
    pub fn give_replies(&mut self, moment: u64)
        requires { Between moment self.old }
        ensures rests { Rests moment self.new }
        ensures gave { GaveReplies moment self.old self.new }
    {
        while self.reply_next(moment) {}
    }
}
