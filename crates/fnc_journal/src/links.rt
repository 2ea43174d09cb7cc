// Where in a journal each thing stands. What a fencer numbered is found in one step.

ghost use Rattle.std.specs.Prelude.{◌≡◌, ◌<◌, length, option_map};
ghost use Rattle.fnc_journal.specs.Links as Links;

use crate::entry::{Reg, Req, Run};
use crate::event::Event;
use crate::journal::Journal;

impl Journal {
    /// The index of the entry that asks the request of a number: the first where several do. None where
    /// there is none.
    pub fn ask_at(&self, req: Req) -> Option<u32>
        ensures { result ≡ Links.ask_at req.0 self.now.history }
    {
        self.index().firsts.asks.get(req.0)
    }

    /// The index of the first reply to a request. None where there is none.
    pub fn reply_at(&self, req: Req) -> Option<u32>
        ensures { result ≡ Links.reply_at req.0 self.now.history }
    {
        self.index().firsts.replies.get(req.0)
    }

    /// The index of the entry that starts the run of a number: the first where several do. None where
    /// there is none.
    pub fn start_at(&self, run: Run) -> Option<u32>
        ensures { result ≡ Links.start_at run.0 self.now.history }
    {
        self.index().firsts.starts.get(run.0)
    }

    /// The index of the first exit of a run. None where there is none.
    pub fn exit_at(&self, run: Run) -> Option<u32>
        ensures { result ≡ Links.exit_at run.0 self.now.history }
    {
        self.index().firsts.exits.get(run.0)
    }

    /// The index of the entry that makes the registration of a number: the first where several do. None
    /// where there is none.
    pub fn device_at(&self, reg: Reg) -> Option<u32>
        ensures { result ≡ Links.device_at reg.0 self.now.history }
    {
        self.index().firsts.devices.get(reg.0)
    }

    /// The index of the newest entry of an operation: the start of one of its runs, or the exit of one.
    /// None where there is none.
    pub fn latest(&self, req: Req) -> Option<u32>
        ensures { result ≡ Links.latest req.0 self.now.history }
    {
        self.index().chains.latest.get(req.0)
    }

    /// The index of the entry of the same operation that comes before an entry. None where there is
    /// none, and where the entry is of no operation.
    pub fn earlier(&self, index: u32) -> Option<u32>
        requires { index < length self.now.history }
        ensures { result ≡ Links.earlier index self.now.history }
    {
        self.index().chains.earlier.get(index)
    }

    /// The operation whose run an event starts or ends, if it came now.
    pub(crate) fn operation_of(&self, event: &Event) -> Option<Req>
        ensures { option_map (λ o. o.0) result ≡ Links.operation_here self.now.history event.now }
    {
        match event {
            Event::Start(start) => Some(start.req),
            Event::Exit(ended) => match self.start_of(ended.run) {
                Some(start) => Some(start.req),
                None => None,
            },
            _ => None,
        }
    }
}
