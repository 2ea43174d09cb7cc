// What the runs of an operation say of a slot.

ghost use Rattle.std.specs.Prelude.{◌≡◌, ◌<◌, ◌&&◌, ◌+◌, ◌-◌, ◌^◌, ℕ, [], IfSome, Some, length};
ghost use Rattle.fnc_journal.specs.Acts as Acts;
ghost use Rattle.fnc_journal.specs.Slots as Slots;
ghost use Rattle.fnc_journal.specs.Links as Links;
ghost use Rattle.fnc_journal.specs.Missing as Missing;
ghost use Rattle.fnc_journal.specs.Lawful.{Lawful};
ghost use Rattle.fnc_search.specs.Seen.{answered_by, concluded_at_by, concluded_by, confirmed_by, end_by};
ghost use Rattle.fnc_search.specs.Seen.{is_in_time_by, seen_begun, seen_ended, seen_exit, seen_failure, seen_in_time};
ghost use Rattle.fnc_search.specs.Seen.{seen_of, seen_success, seen_with, slot_for, spent_by};

use crate::found::start_of;
use crate::past::Past;
use crate::task::Task;
use fnc_journal::{Ended, Entry, Event, Slot, Start};

/// The last run of a slot.
#[derive(Clone, Copy)]
pub enum Last {
    NoRun,
    Alive(u32),
    EndedAt(u64),
}

/// What was seen of a slot: its first start, its failed tries, its first success, its last allowed
/// failure, whether a success listed the node, and its last run.
#[derive(Clone, Copy)]
pub struct Seen {
    pub begun: Option<u64>,
    pub failed: u64,
    pub success: Option<u64>,
    pub last_failure: Option<u64>,
    pub listed: bool,
    pub last: Last,
}

fn slot_for(start: Option<Start>, req: u32) -> Option<Slot>
    ensures { result ≡ slot_for req start }
{
    let start = start?;
    if req == start.req.0 {
        Some(start.slot)
    } else {
        None
    }
}

/// The slot that a run was started for, where it is a run of the operation.
fn slot_of_run(past: &Past<'_>, req: u32, run: u32) -> Option<Slot>
    requires { Lawful past.now }
    ensures { result ≡ Acts.slot_of_run run (Acts.acts req past.now) }
{
    slot_for(start_of(past, run), req)
}

fn is_in_time(task: &Task<'_>, over: u128, begun: Option<u64>, moment: u64) -> bool
    ensures { result ≡ is_in_time_by task.now over begun moment }
{
    match begun {
        None => false,
        Some(begun) => {
            let end = u128::from(begun) + u128::from(task.time());
            u128::from(moment) < over.min(end)
        }
    }
}

fn first_of(earlier: Option<u64>, moment: u64) -> Option<u64>
    ensures { result ≡ Missing.or_here earlier (Some moment) }
{
    match earlier {
        Some(first) => Some(first),
        None => Some(moment),
    }
}

impl Seen {
    /// Of no runs.
    fn nothing() -> Seen
        ensures { (t : Slots.Task) (over : ℕ) → result ≡ seen_of t over [] }
    {
        Seen {
            begun: None,
            failed: 0,
            success: None,
            last_failure: None,
            listed: false,
            last: Last::NoRun,
        }
    }

    /// With one more start.
    fn begun(self, task: &Task<'_>, moment: u64, start: &Start) -> Seen
        ensures { result ≡ seen_begun task.now self moment start.now.run.0 start.now.slot }
    {
        if task.is_for(start.slot) {
            Seen {
                begun: first_of(self.begun, moment),
                last: Last::Alive(start.run.0),
                ..self
            }
        } else {
            self
        }
    }

    /// With one more success.
    fn succeeded(self, moment: u64, listed: bool) -> Seen
        ensures { result ≡ seen_success self moment listed }
    {
        Seen {
            success: first_of(self.success, moment),
            listed: listed || self.listed,
            ..self
        }
    }

    /// With one more failure.
    fn failed(self, tries: u8, moment: u64) -> Seen
        requires { self.failed < 2 ^ 64 - 1 }
        ensures { result ≡ seen_failure self tries moment }
    {
        let failed = self.failed + 1;
        let last_failure = if failed == u64::from(tries) {
            first_of(self.last_failure, moment)
        } else {
            self.last_failure
        };
        Seen {
            failed,
            last_failure,
            ..self
        }
    }

    /// With one more exit in time.
    fn in_time(self, task: &Task<'_>, moment: u64, ended: &Ended) -> Seen
        requires { self.failed < 2 ^ 64 - 1 }
        ensures { result ≡ seen_in_time task.now self moment ended.now.exit ended.now.listed }
    {
        if ended.exit.is_success_of(task.kind()) {
            self.succeeded(moment, ended.listed)
        } else {
            self.failed(task.tries(), moment)
        }
    }

    /// With one more exit of the slot.
    fn exited(self, task: &Task<'_>, over: u128, moment: u64, ended: &Ended) -> Seen
        requires { self.failed < 2 ^ 64 - 1 }
        ensures { result ≡ seen_exit task.now over self moment ended.now.exit ended.now.listed }
    {
        if is_in_time(task, over, self.begun, moment) {
            self.in_time(task, moment, ended)
        } else {
            self
        }
    }

    /// With one more exit.
    fn ended(self, task: &Task<'_>, over: u128, moment: u64, slot: Slot, ended: &Ended) -> Seen
        requires { self.failed < 2 ^ 64 - 1 }
        ensures { result ≡ seen_ended task.now over self moment slot ended.now.exit ended.now.listed }
    {
        if task.is_for(slot) {
            let seen = Seen {
                last: Last::EndedAt(moment),
                ..self
            };
            seen.exited(task, over, moment, ended)
        } else {
            self
        }
    }

    /// With one more entry.
    fn after(self, task: &Task<'_>, over: u128, before: &Past<'_>, req: u32, entry: &Entry) -> Seen
        requires few { self.failed < 2 ^ 64 - 1 }
        requires lawful { Lawful before.now }
        ensures { result
            ≡ seen_with task.now over self
            (Acts.act_here req entry.now.moment (Acts.acts req before.now) entry.now.event) }
    {
        match &entry.event {
            Event::Start(start) => {
                if req == start.req.0 {
                    self.begun(task, entry.moment, start)
                } else {
                    self
                }
            }
            Event::Exit(ended) => match slot_of_run(before, req, ended.run.0) {
                Some(slot) => self.ended(task, over, entry.moment, slot, ended),
                None => self,
            },
            _ => self,
        }
    }

    /// The end of the slot's action.
    pub fn end(self, task: &Task<'_>) -> Option<u128>
        ensures end { result ≡ end_by task.now self }
        ensures small { IfSome result (λ x. x < 2 ^ 65) }
    {
        let begun = self.begun?;
        Some(u128::from(begun) + u128::from(task.time()))
    }

    /// Whether the slot is confirmed.
    pub fn is_confirmed(self, task: &Task<'_>) -> bool
        ensures { result ≡ confirmed_by task.now self }
    {
        !task.is_query() && self.success.is_some()
    }

    /// Whether the slot is answered.
    pub fn is_answered(self, task: &Task<'_>) -> bool
        ensures { result ≡ answered_by task.now self }
    {
        task.is_query() && self.success.is_some()
    }

    /// Whether the slot is spent.
    pub fn is_spent(self, task: &Task<'_>, moment: u64) -> bool
        ensures { result ≡ spent_by task.now moment self }
    {
        self.failed == u64::from(task.tries()) || has_come(self.end(task), moment)
    }

    /// Whether the slot is concluded.
    pub fn is_concluded(self, task: &Task<'_>, moment: u64) -> bool
        ensures { result ≡ concluded_by task.now moment self }
    {
        self.success.is_some() || self.is_spent(task, moment)
    }

    /// When the slot was concluded.
    pub fn concluded_at(self, task: &Task<'_>, begin: u64) -> u128
        ensures at { result ≡ concluded_at_by task.now begin self }
        ensures small { result < 2 ^ 65 }
    {
        let success = wide(self.success);
        let failure = wide(self.last_failure);
        match least_of(success, least_of(failure, self.end(task))) {
            Some(moment) => moment,
            None => u128::from(begin),
        }
    }
}

fn wide(moment: Option<u64>) -> Option<u128>
    ensures same { result ≡ moment }
    ensures small { IfSome result (λ x. x < 2 ^ 65) }
{
    let moment = moment?;
    Some(u128::from(moment))
}

fn least_of(a: Option<u128>, b: Option<u128>) -> Option<u128>
    requires a { IfSome a (λ x. x < 2 ^ 65) }
    requires b { IfSome b (λ x. x < 2 ^ 65) }
    ensures least { result ≡ Missing.least_of a b }
    ensures small { IfSome result (λ x. x < 2 ^ 65) }
{
    match (a, b) {
        (Some(x), Some(y)) => Some(x.min(y)),
        (None, _) => b,
        _ => a,
    }
}

fn has_come(end: Option<u128>, moment: u64) -> bool
    ensures { result ≡ Missing.has_come end moment }
{
    match end {
        Some(end) => end <= u128::from(moment),
        None => false,
    }
}

/// What the runs of an operation say of a slot, from the newest entry of the operation back.
fn looked_back(past: &Past<'_>, req: u32, task: &Task<'_>, over: u128, newest: Option<u32>) -> Seen
    requires lawful { Lawful past.now }
    requires newest { newest ≡ Links.latest req past.now }
    requires within { IfSome newest (λ i. i < length past.now) }
    ensures { result ≡ seen_of task.now over (Acts.acts req past.now) }
{
    match newest {
        None => Seen::nothing(),
        Some(at) => {
            let before = past.before(at);
            let seen = looked_back(&before, req, task, over, past.earlier(at));
            seen.after(task, over, &before, req, past.entry(before.len()))
        }
    }
}

/// What the runs of an operation say of a slot, after entries that are lawful.
pub fn looked_at(past: &Past<'_>, req: u32, task: &Task<'_>, over: u128) -> Seen
    requires { Lawful past.now }
    ensures { result ≡ seen_of task.now over (Acts.acts req past.now) }
{
    looked_back(past, req, task, over, past.latest(req))
}
