// Whether two devices, or what is told of two agents, are the same.

use crate::same::Same;
use fnc_journal::{
    Actions, Allowed, Base, Definition, Delay, Description, Pair, Parameter, Registration,
};

impl Same for Pair {
    fn is_same(&self, other: &Pair) -> bool {
        self.name.is_same(&other.name) && self.value.is_same(&other.value)
    }
}

impl Same for Delay {
    fn is_same(&self, other: &Delay) -> bool {
        self.name.is_same(&other.name) && self.ms == other.ms
    }
}

impl Same for Parameter {
    fn is_same(&self, other: &Parameter) -> bool {
        self.name.is_same(&other.name) && self.required == other.required
    }
}

impl Same for Allowed {
    fn is_same(&self, other: &Allowed) -> bool {
        self.word.is_same(&other.word) && self.time == other.time && self.tries == other.tries
    }
}

impl Same for Base {
    fn is_same(&self, other: &Base) -> bool {
        match (self, other) {
            (Base::Fixed(ms), Base::Fixed(other)) => ms == other,
            (Base::ByNode(delays), Base::ByNode(others)) => delays.is_same(others),
            _ => false,
        }
    }
}

impl Same for Actions {
    fn is_same(&self, other: &Actions) -> bool {
        self.on == other.on
            && self.off == other.off
            && self.reboot == other.reboot
            && self.list == other.list
            && self.status == other.status
    }
}

impl Same for Definition {
    fn is_same(&self, other: &Definition) -> bool {
        self.actions.is_same(&other.actions)
            && self.check == other.check
            && self.hosts.is_same(&other.hosts)
            && self.map.is_same(&other.map)
            && self.argument.is_same(&other.argument)
            && self.cap == other.cap
            && self.priority == other.priority
            && self.base.is_same(&other.base)
            && self.max == other.max
            && self.keep == other.keep
            && self.on.is_same(&other.on)
            && self.off.is_same(&other.off)
            && self.reboot.is_same(&other.reboot)
            && self.list.is_same(&other.list)
            && self.status.is_same(&other.status)
            && self.own.is_same(&other.own)
    }
}

impl Same for Registration {
    fn is_same(&self, other: &Registration) -> bool {
        self.name.is_same(&other.name)
            && self.agent.is_same(&other.agent)
            && self.definition.is_same(&other.definition)
    }
}

impl Same for Description {
    fn is_same(&self, other: &Description) -> bool {
        self.actions.is_same(&other.actions)
            && self.parameters.is_same(&other.parameters)
            && self.target.is_same(&other.target)
    }
}
