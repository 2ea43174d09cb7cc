// Whether two entries are the same.

use crate::same::Same;
use fnc_journal::{
    Confirmation, Described, Entry, Event, LevelCleared, LevelSet, LevelTarget, Registered, Request,
};

impl Same for LevelTarget {
    fn is_same(&self, other: &LevelTarget) -> bool {
        match (self, other) {
            (LevelTarget::Name(name), LevelTarget::Name(other)) => name.is_same(other),
            (LevelTarget::Pattern(text), LevelTarget::Pattern(other)) => text.is_same(other),
            _ => false,
        }
    }
}

impl Same for Registered {
    fn is_same(&self, other: &Registered) -> bool {
        self.reg == other.reg && self.registration.is_same(&other.registration)
    }
}

impl Same for LevelSet {
    fn is_same(&self, other: &LevelSet) -> bool {
        self.target.is_same(&other.target)
            && self.index == other.index
            && self.devices.is_same(&other.devices)
    }
}

impl Same for LevelCleared {
    fn is_same(&self, other: &LevelCleared) -> bool {
        self.target.is_same(&other.target) && self.index == other.index
    }
}

impl Same for Described {
    fn is_same(&self, other: &Described) -> bool {
        self.name.is_same(&other.name) && self.description.is_same(&other.description)
    }
}

impl Same for Request {
    fn is_same(&self, other: &Request) -> bool {
        self.req == other.req
            && self.lead == other.lead
            && self.client.is_same(&other.client)
            && self.kind == other.kind
            && self.target.is_same(&other.target)
            && self.total == other.total
            && self.coin == other.coin
            && self.scope == other.scope
    }
}

impl Same for Confirmation {
    fn is_same(&self, other: &Confirmation) -> bool {
        self.client.is_same(&other.client) && self.target.is_same(&other.target)
    }
}

impl Same for Event {
    fn is_same(&self, other: &Event) -> bool {
        match (self, other) {
            (Event::Device(one), Event::Device(two)) => one.is_same(two),
            (Event::Gone { reg }, Event::Gone { reg: other }) => reg == other,
            (Event::Level(one), Event::Level(two)) => one.is_same(two),
            (Event::LevelGone(one), Event::LevelGone(two)) => one.is_same(two),
            (Event::Agent(one), Event::Agent(two)) => one.is_same(two),
            (Event::Ask(one), Event::Ask(two)) => one.is_same(two),
            (Event::Exit(one), Event::Exit(two)) => one == two,
            (Event::Pass, Event::Pass) => true,
            (Event::Confirm(one), Event::Confirm(two)) => one.is_same(two),
            (Event::Refused(one), Event::Refused(two)) => one == two,
            (Event::Start(one), Event::Start(two)) => one == two,
            (Event::Reply(one), Event::Reply(two)) => one == two,
            _ => false,
        }
    }
}

impl Same for Entry {
    fn is_same(&self, other: &Entry) -> bool {
        self.moment == other.moment && self.event.is_same(&other.event)
    }
}
