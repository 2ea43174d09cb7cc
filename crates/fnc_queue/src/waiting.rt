// A try that waits for its start.

ghost use Rattle.std.specs.Prelude.{◌≡◌, ◌<◌, ◌^◌, length};
ghost use Rattle.std.specs.Option.{option_copied};
ghost use Rattle.fnc_journal.specs.Startable as Startable;
ghost use Rattle.fnc_queue.specs.Lanes as Lanes;
ghost use Rattle.fnc_queue.specs.Lines as Lines;
ghost use Rattle.fnc_queue.specs.Places as Places;

use crate::lanes::count;
use fnc_journal::{Reg, Req};

/// A try of an operation that waits for its start: the lane of its device, the moment since which it is
/// ready, and how many runs of the lane may be alive at once by the device's own registration, None
/// being without limit.
#[derive(Clone, Copy, Debug, PartialEq, Eq)]
pub struct Waiting {
    pub req: Req,
    pub lane: Reg,
    pub ready: u64,
    pub cap: Option<u32>,
}

/// Where a limit stands among the limits: none first, then by number.
fn cap_rank(cap: Option<u32>) -> u64
    ensures { result ≡ Lines.cap_rank cap }
{
    match cap {
        Some(cap) => u64::from(cap) + 1,
        None => 0,
    }
}

/// Whether there is room for one more run below a limit.
fn has_room(alive: u32, cap: Option<u32>) -> bool
    ensures { result ≡ Startable.has_room alive cap }
{
    match cap {
        Some(cap) => alive < cap,
        None => true,
    }
}

impl Waiting {
    /// Whether it may start at a moment while these runs are alive.
    fn may_start(&self, moment: u64, alive: &[Reg]) -> bool
        requires few { length alive.now < 2 ^ 32 }
        requires order { Lanes.InLanes alive.now }
        ensures { result ≡ Places.may_start moment alive.now self.now }
    {
        self.ready <= moment && has_room(count(alive, self.lane), self.cap)
    }

    /// Whether it comes before another.
    fn is_before(&self, other: &Waiting) -> bool
        ensures { result ≡ Places.is_before self.now other.now }
    {
        self.ready < other.ready || (self.ready == other.ready && self.req.0 < other.req.0)
    }

    /// Whether it stands in line ahead of another: by lane, by limit, then by which comes first.
    pub(crate) fn is_ahead(&self, other: &Waiting) -> bool
        ensures { result ≡ Lines.is_ahead self.now other.now }
    {
        let (own, others) = (cap_rank(self.cap), cap_rank(other.cap));
        self.lane.0 < other.lane.0
            || (self.lane.0 == other.lane.0
                && (own < others || (own == others && self.is_before(other))))
    }

    /// Whether it stands in line no later than those of another's lane and limit.
    pub(crate) fn is_within(&self, head: &Waiting) -> bool
        ensures { result ≡ Lines.is_within head.now self.now }
    {
        self.lane.0 < head.lane.0
            || (self.lane.0 == head.lane.0 && cap_rank(self.cap) <= cap_rank(head.cap))
    }
}

/// The sooner of the first that was found and a try, where that may start. The runs of its lane are counted only
/// where it would come first.
pub(crate) fn sooner<'a>(
    first: Option<&'a Waiting>,
    item: &'a Waiting,
    moment: u64,
    alive: &[Reg],
) -> Option<&'a Waiting>
    requires few { length alive.now < 2 ^ 32 }
    requires order { Lanes.InLanes alive.now }
    ensures { option_copied result ≡ Places.soonest (option_copied first.entry) (Places.candidate moment alive.now item.now) }
{
    match first {
        Some(found) if !item.is_before(found) => first,
        _ if item.may_start(moment, alive) => Some(item),
        _ => first,
    }
}
