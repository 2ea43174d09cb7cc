// The slots that an operation may start on a device.

ghost use Rattle.std.specs.Prelude.{◌≡◌, option_map};
ghost use Rattle.fnc_journal.specs.Device as Devices;
ghost use Rattle.fnc_journal.specs.Slots as Slots;
ghost use Rattle.fnc_journal.specs.Acts as Acts;
ghost use Rattle.fnc_journal.specs.Same.{same_slot};
ghost use Rattle.fnc_search.specs.Placed.{placed};

use crate::found::registration;
use crate::past::Past;
use crate::registered::current;
use fnc_journal::{Definition, Kind, Phase, Slot};
use std::marker::Model;

/// A device: a registration's number, and what it was registered with.
#[derive(Drop)]
pub struct Device<'a> {
    pub(crate) reg: u32,
    pub(crate) definition: &'a Definition,
}

impl<'a> Model for Device<'a> {
    ghost use Rattle.fnc_journal.specs.Device as Device;

    ghost Value = { Device.Device };

    ghost view = { λ d. record { reg = d.reg; definition = d.definition.now } };
}

impl<'a> Device<'a> {
    /// Its registration.
    pub fn reg(&self) -> u32
        ensures { result ≡ self.now.reg }
    {
        self.reg
    }
}

/// A slot with its device's registration and the action that it runs there.
#[derive(Drop)]
pub struct Task<'a> {
    phase: Phase,
    level: u64,
    place: usize,
    reg: u32,
    definition: &'a Definition,
    kind: Kind,
}

impl<'a> Model for Task<'a> {
    ghost use Rattle.fnc_journal.specs.Slots as Slots;

    ghost Value = { Slots.Task };

    ghost view = { λ t. record {
      slot = record { phase = t.phase; level = t.level; place = t.place };
      reg = t.reg;
      definition = t.definition.now;
      kind = t.kind;
    } };
}

impl<'a> Task<'a> {
    /// A slot of a device.
    pub fn on_device(
        phase: Phase,
        kind: Kind,
        level: u64,
        place: usize,
        device: &Device<'a>,
    ) -> Task<'a>
        ensures { result ≡ Slots.task phase kind level place device.now }
    {
        Task {
            phase,
            level,
            place,
            reg: device.reg,
            definition: device.definition,
            kind,
        }
    }

    /// The registration of its device.
    pub fn reg(&self) -> u32
        ensures { result ≡ self.now.reg }
    {
        self.reg
    }

    /// The phase of its slot.
    pub fn phase(&self) -> Phase
        ensures { result ≡ self.now.slot.phase }
    {
        self.phase
    }

    /// The action that it runs.
    pub fn kind(&self) -> Kind
        ensures { result ≡ self.now.kind }
    {
        self.kind
    }

    /// The delay of its first try, for a node and a coin.
    pub fn delay(&self, target: &str, coin: u64) -> u64
        ensures { result ≡ Devices.delay self.now.definition self.now.kind target.now coin }
    {
        self.definition.delay_of(self.kind, target, coin)
    }

    /// How many runs its device may have alive, where there is a limit.
    pub fn cap(&self) -> Option<u32>
        ensures { result ≡ self.now.definition.cap }
    {
        self.definition.cap
    }

    /// The same slot once more.
    pub fn again(&self) -> Task<'a>
        ensures { result ≡ self.now }
    {
        Task {
            phase: self.phase,
            level: self.level,
            place: self.place,
            reg: self.reg,
            definition: self.definition,
            kind: self.kind,
        }
    }

    /// Whether this is its slot.
    pub fn is_for(&self, slot: Slot) -> bool
        ensures { result ≡ same_slot self.now.slot slot }
    {
        self.phase.is(slot.phase)
            && self.level == u64::from(slot.level)
            && self.place == usize::from(slot.place)
    }

    /// Whether its slot is this one.
    pub fn is_of(&self, slot: Slot) -> bool
        ensures { result ≡ same_slot slot self.now.slot }
    {
        slot.phase.is(self.phase)
            && u64::from(slot.level) == self.level
            && usize::from(slot.place) == self.place
    }

    /// Whether the slot asks a query.
    pub fn is_query(&self) -> bool
        ensures { result ≡ Acts.is_query self.now }
    {
        self.phase.is(Phase::Query)
    }

    /// How many tries the slot is allowed.
    pub fn tries(&self) -> u8
        ensures { result ≡ Slots.tries self.now }
    {
        self.definition.allowed(self.kind).tries
    }

    /// The time that the slot is allowed, from its first start on.
    pub fn time(&self) -> u64
        ensures { result ≡ Slots.time self.now }
    {
        self.definition.allowed(self.kind).time
    }
}

/// The device of a registration.
pub fn device_of<'a>(before: &Past<'a>, reg: u32) -> Option<Device<'a>>
    ensures { result ≡ Slots.device_of before.now (record { 0 = reg }) }
{
    let registration = registration(before, reg)?;
    Some(Device {
        reg,
        definition: &registration.definition,
    })
}

fn fit(kind: Kind, device: Device<'_>) -> Option<Device<'_>>
    ensures { result ≡ Slots.fit kind device.entry }
{
    if device.definition.is_fit(kind) {
        Some(device)
    } else {
        None
    }
}

/// The device of a name, where it is registered and fit for an action.
pub fn placed_at<'a>(kind: Kind, before: &Past<'a>, name: &str) -> Option<Device<'a>>
    ensures { result ≡ placed kind before.now name.now }
{
    let reg = current(before, name)?;
    let device = device_of(before, reg)?;
    fit(kind, device)
}

/// An Off slot in a split reboot, else an Act slot.
pub fn act_task<'a>(
    split: bool,
    kind: Kind,
    level: u64,
    place: usize,
    device: &Device<'a>,
) -> Task<'a>
    ensures { result ≡ Slots.act_task split kind level place device.now }
{
    if split {
        Task::on_device(Phase::Off, Kind::Off, level, place, device)
    } else {
        let kind = device.definition.acting(kind);
        Task::on_device(Phase::Act, kind, level, place, device)
    }
}

/// The On slot of a device that has on.
pub fn on_task<'a>(level: u64, place: usize, device: &Device<'a>) -> Option<Task<'a>>
    ensures { result ≡ Slots.on_task level place device.now }
{
    if device.definition.actions.on {
        Some(Task::on_device(Phase::On, Kind::On, level, place, device))
    } else {
        None
    }
}
