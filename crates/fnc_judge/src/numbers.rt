// How many registrations, requests and runs the first entries of a journal have.

ghost use Rattle.std.specs.Prelude.{◌≡◌, ◌<◌, ◌^◌, ◌-◌};
ghost use Rattle.fnc_judge.specs.Numbers.{IsBelow, numbered, numbers_of};

use fnc_journal::Event;
use fnc_search::Past;

/// The number of the next registration, request and run.
#[derive(Clone, Copy, Debug)]
pub(crate) struct Numbers {
    pub devices: u32,
    pub asks: u32,
    pub starts: u32,
}

impl Numbers {
    /// The numbers with one more entry.
    fn with(self, event: &Event) -> Numbers
        requires { IsBelow (2 ^ 32 - 1) self }
        ensures { result ≡ numbered self event.now }
    {
        match event {
            Event::Device(_) => Numbers {
                devices: self.devices + 1,
                ..self
            },
            Event::Ask(_) => Numbers {
                asks: self.asks + 1,
                ..self
            },
            Event::Start(_) => Numbers {
                starts: self.starts + 1,
                ..self
            },
            _ => self,
        }
    }
}

/// The next numbers after the first entries.
pub(crate) fn counted(past: &Past<'_>) -> Numbers
    ensures { result ≡ numbers_of past.now }
{
    let mut found = Numbers {
        devices: 0,
        asks: 0,
        starts: 0,
    };
    for i in 0..past.len() {
        found = found.with(&past.entry(i).event);
    }
    found
}
