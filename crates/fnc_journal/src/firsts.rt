// Where the first entry of each number stands.

ghost use Rattle.std.specs.Prelude.{ℕ, ◌≡◌, ◌<◌, ◌∷◌, [], length, IfOk};
ghost use Rattle.fnc_journal.specs.History.{History};
ghost use Rattle.fnc_journal.specs.Index.{AreFirsts};

use crate::cells::Cells;
use crate::event::Event;
use crate::outcome::NoMemory;
use std::alloc::Global;

/// The indices of the first entries, by the number that they bear.
#[derive(Debug, Drop)]
pub(crate) struct Firsts {
    pub asks: Cells,
    pub replies: Cells,
    pub starts: Cells,
    pub exits: Cells,
    pub devices: Cells,
}

impl Firsts {
    /// Those of an empty journal, with room for one of some length.
    pub fn with_room(alloc: Global, room: u32) -> Result<Firsts, NoMemory>
        ensures { IfOk result (λ f. AreFirsts room [] f) }
    {
        let asks = Cells::with_room(alloc, room)?;
        let replies = Cells::with_room(alloc, room)?;
        let starts = Cells::with_room(alloc, room)?;
        let exits = Cells::with_room(alloc, room)?;
        let devices = Cells::with_room(alloc, room)?;
        Ok(Firsts {
            asks,
            replies,
            starts,
            exits,
            devices,
        })
    }

    /// An event comes with the entry of an index.
    pub fn enter(&mut self, event: &Event, at: u32)
        ensures { (room moment : ℕ) (h : History) → length h ≡ at → at < room → AreFirsts room h self.old →
            AreFirsts room (record { moment = moment; event = event.now } ∷ h) self.new }
    {
        match event {
            Event::Device(device) => self.devices.put_first(device.reg.0, at),
            Event::Ask(request) => self.asks.put_first(request.get().req.0, at),
            Event::Exit(ended) => self.exits.put_first(ended.run.0, at),
            Event::Start(start) => self.starts.put_first(start.run.0, at),
            Event::Reply(reply) => self.replies.put_first(reply.req.0, at),
            _ => {}
        }
    }
}
