// The records of slots, levels and candidates of an operation that begins.

ghost use Rattle.std.specs.Prelude.{◌≡◌, ◌≤◌, [], length, map, is_none, option_map, option_and_then, if◌then◌else◌};
ghost use Rattle.std.specs.Prelude.{IfOk, OnOk};
ghost use Rattle.std.specs.List.{list_any};
ghost use Rattle.fnc_ops.specs.Stands.{AreFewDevices};
ghost use Rattle.fnc_journal.specs.Missing.{append_some};
ghost use Rattle.fnc_journal.specs.Slots as Slots;
ghost use Rattle.fnc_ops.specs.FreshRecords as FreshRecords;

use crate::ops::Operation;
use fnc_journal::limits::{MOST_DEVICES, MOST_DEVICES_OF_LEVEL};
use fnc_journal::{
    Candidate, Definition, Journal, Kind, NoMemory, Phase, Plan, PlanLevel, Reg, Req, Scope, Slot,
    Text,
};
use fnc_records::{LastRun, LevelRecord, SlotRecord};
use std::alloc::Global;

/// A device: its registration, and what that was made with.
#[derive(Clone, Copy, Debug)]
pub(crate) struct Device<'a> {
    pub reg: Reg,
    pub definition: &'a Definition,
}

/// The device of a registration.
pub(crate) fn device_of<'a>(journal: &'a Journal, reg: Reg) -> Option<Device<'a>>
    ensures { option_map (λ d. record { reg = d.reg.0; definition = d.definition.now }) result ≡
        Slots.device_of journal.now.history reg }
{
    match journal.registration(reg) {
        None => None,
        Some(registration) => Some(Device {
            reg,
            definition: &registration.definition,
        }),
    }
}

/// The device at a place, where it is there and fit.
pub(crate) fn fit_device<'a>(
    journal: &'a Journal,
    kind: Kind,
    place: Option<Reg>,
) -> Option<Device<'a>>
    ensures { option_map (λ d. record { reg = d.reg.0; definition = d.definition.now }) result ≡
        Slots.place_of kind journal.now.history place }
{
    match place {
        None => None,
        Some(reg) => match device_of(journal, reg) {
            None => None,
            Some(device) => {
                if device.definition.is_fit(kind) {
                    Some(device)
                } else {
                    None
                }
            }
        },
    }
}

/// Whether no device is at a place, or one that is unfit.
fn is_missing(journal: &Journal, kind: Kind, place: Option<Reg>) -> bool
    ensures { result ≡ is_none (Slots.place_of kind journal.now.history place) }
{
    match fit_device(journal, kind, place) {
        None => true,
        Some(_) => false,
    }
}

/// Whether a level of these devices is unfit.
pub(crate) fn is_unfit(journal: &Journal, kind: Kind, places: &[Option<Reg>]) -> bool
    ensures { result ≡ list_any (λ p. is_none (Slots.place_of kind journal.now.history p)) places.now }
{
    places.iter().any(|p| is_missing(journal, kind, *p))
}

/// The record of a slot that runs an action on a device.
fn fresh_slot(operation: &Operation, slot: Slot, kind: Kind, device: Device) -> SlotRecord
    ensures { result ≡ FreshRecords.fresh_slot operation.now.target operation.now.coin
        (record { slot = slot; reg = device.entry.reg.0; definition = device.entry.definition.now; kind = kind }) }
{
    let allowed = device.definition.allowed(kind);
    SlotRecord {
        slot,
        reg: device.reg,
        kind,
        time: allowed.time,
        tries: allowed.tries,
        delay: device
            .definition
            .delay_of(kind, operation.target.as_str(), operation.coin),
        runs: 0,
        failed: 0,
        succeeded: false,
        listed: false,
        end: None,
        last: LastRun::NoRun,
        succeeded_at: None,
        failed_at: None,
    }
}

/// The Act slot of a device, or its Off slot where the action is split.
fn act_slot(operation: &Operation, split: bool, level: u8, place: u8, device: Device) -> SlotRecord
    ensures { result ≡ FreshRecords.fresh_slot operation.now.target operation.now.coin
        (Slots.act_task split operation.now.kind level place
        (record { reg = device.entry.reg.0; definition = device.entry.definition.now })) }
{
    let (phase, kind) = if split {
        (Phase::Off, Kind::Off)
    } else {
        (Phase::Act, device.definition.acting(operation.kind))
    };
    let slot = Slot {
        phase,
        level,
        place,
    };
    fresh_slot(operation, slot, kind, device)
}

/// The On slot of a device, where that has on.
fn on_slot(operation: &Operation, level: u8, place: u8, device: Device) -> Option<SlotRecord>
    ensures { result ≡ option_map (FreshRecords.fresh_slot operation.now.target operation.now.coin)
        (Slots.on_task level place (record { reg = device.entry.reg.0; definition = device.entry.definition.now })) }
{
    if device.definition.actions.on {
        let slot = Slot {
            phase: Phase::On,
            level,
            place,
        };
        Some(fresh_slot(operation, slot, Kind::On, device))
    } else {
        None
    }
}

/// The Act or Off slot at a place, where its device is there and fit.
fn first_at(
    journal: &Journal,
    operation: &Operation,
    split: bool,
    level: u8,
    place: u8,
    reg: Option<Reg>,
) -> Option<SlotRecord>
    ensures { result ≡ option_map (FreshRecords.fresh_slot operation.now.target operation.now.coin)
        (option_map (Slots.act_task split operation.now.kind level place)
        (Slots.place_of operation.now.kind journal.now.history reg)) }
{
    match fit_device(journal, operation.kind, reg) {
        None => None,
        Some(device) => Some(act_slot(operation, split, level, place, device)),
    }
}

/// The On slot at a place, where its device is there and fit, and has on.
fn on_at(
    journal: &Journal,
    operation: &Operation,
    level: u8,
    place: u8,
    reg: Option<Reg>,
) -> Option<SlotRecord>
    ensures { result ≡ option_map (FreshRecords.fresh_slot operation.now.target operation.now.coin)
        (option_and_then (Slots.on_task level place) (Slots.place_of operation.now.kind journal.now.history reg)) }
{
    match fit_device(journal, operation.kind, reg) {
        None => None,
        Some(device) => on_slot(operation, level, place, device),
    }
}

fn push_slot(slots: &mut Vec<SlotRecord>, slot: Option<SlotRecord>) -> Result<(), NoMemory>
    ensures { OnOk result (slots.new.items ≡ append_some slots.old.items slot) }
{
    if let Some(slot) = slot {
        slots.push(slot)?;
    }
    Ok(())
}

/// The Act or Off slots of a level.
fn firsts(
    alloc: Global,
    journal: &Journal,
    operation: &Operation,
    split: bool,
    level: u8,
    places: &[Option<Reg>],
) -> Result<Vec<SlotRecord>, NoMemory>
    requires { length places.now ≤ MOST_DEVICES_OF_LEVEL }
    ensures { IfOk result (λ slots. slots.items ≡ map (FreshRecords.fresh_slot operation.now.target operation.now.coin)
        (FreshRecords.firsts_at split operation.now.kind level 0
        (map (Slots.place_of operation.now.kind journal.now.history) places.now))) }
{
    let mut slots = Vec::new(alloc);
    let mut place = 0;
    for reg in places {
        let slot = first_at(journal, operation, split, level, place, *reg);
        push_slot(&mut slots, slot)?;
        place += 1;
    }
    Ok(slots)
}

/// The On slots of a level.
fn ons(
    alloc: Global,
    journal: &Journal,
    operation: &Operation,
    level: u8,
    places: &[Option<Reg>],
) -> Result<Vec<SlotRecord>, NoMemory>
    requires { length places.now ≤ MOST_DEVICES_OF_LEVEL }
    ensures { IfOk result (λ slots. slots.items ≡ map (FreshRecords.fresh_slot operation.now.target operation.now.coin)
        (FreshRecords.ons_at level 0 (map (Slots.place_of operation.now.kind journal.now.history) places.now))) }
{
    let mut slots = Vec::new(alloc);
    let mut place = 0;
    for reg in places {
        let slot = on_at(journal, operation, level, place, *reg);
        push_slot(&mut slots, slot)?;
        place += 1;
    }
    Ok(slots)
}

/// Whether an action on so many devices is split: off on all of them, then on.
pub(crate) fn splits(kind: Kind, devices: usize) -> bool
    ensures { result ≡ FreshRecords.splits kind devices }
{
    match kind {
        Kind::Reboot => 2 <= devices,
        _ => false,
    }
}

/// The On slots of a level, which has none where the action is not split.
fn ons_where(
    alloc: Global,
    journal: &Journal,
    operation: &Operation,
    split: bool,
    level: u8,
    places: &[Option<Reg>],
) -> Result<Vec<SlotRecord>, NoMemory>
    requires { length places.now ≤ MOST_DEVICES_OF_LEVEL }
    ensures { IfOk result (λ slots. slots.items ≡ map (FreshRecords.fresh_slot operation.now.target operation.now.coin)
        (if split then FreshRecords.ons_at level 0
        (map (Slots.place_of operation.now.kind journal.now.history) places.now) else [])) }
{
    if split {
        ons(alloc, journal, operation, level, places)
    } else {
        Ok(Vec::new(alloc))
    }
}

/// A level with an unfit device.
fn unfit_level(alloc: Global, index: u8) -> LevelRecord
    ensures { result ≡ FreshRecords.unfit_level index }
{
    LevelRecord {
        query: None,
        tried: true,
        index,
        unfit: true,
        firsts: Vec::new(alloc),
        ons: Vec::new(alloc),
    }
}

/// A level whose devices are all there and fit.
fn fit_level(
    alloc: Global,
    journal: &Journal,
    operation: &Operation,
    index: u8,
    places: &[Option<Reg>],
) -> Result<LevelRecord, NoMemory>
    requires { length places.now ≤ MOST_DEVICES_OF_LEVEL }
    ensures { IfOk result (λ l. l ≡
        FreshRecords.fit_level operation.now.target operation.now.coin operation.now.kind index
        (map (Slots.place_of operation.now.kind journal.now.history) places.now)) }
{
    let split = splits(operation.kind, places.len());
    Ok(LevelRecord {
        query: None,
        tried: true,
        index,
        unfit: false,
        firsts: firsts(alloc, journal, operation, split, index, places)?,
        ons: ons_where(alloc, journal, operation, split, index, places)?,
    })
}

/// The record of a level of the plan.
fn fresh_level(
    alloc: Global,
    journal: &Journal,
    operation: &Operation,
    level: &PlanLevel,
) -> Result<LevelRecord, NoMemory>
    requires { length level.now.devices ≤ MOST_DEVICES_OF_LEVEL }
    ensures { IfOk result (λ l. l ≡ FreshRecords.fresh_level operation.now.target operation.now.coin
        (Slots.rank_of operation.now.kind journal.now.history level.now)) }
{
    let places = level.devices.as_slice();
    if is_unfit(journal, operation.kind, places) {
        Ok(unfit_level(alloc, level.index))
    } else {
        fit_level(alloc, journal, operation, level.index, places)
    }
}

/// The slot that asks a candidate, where it is asked.
fn query_slot(
    operation: &Operation,
    place: u8,
    query: Option<Kind>,
    device: Device,
) -> Option<SlotRecord>
    ensures { result ≡ option_map (FreshRecords.fresh_slot operation.now.target operation.now.coin)
        (Slots.queried place query
        (record { reg = device.entry.reg.0; definition = device.entry.definition.now })).query }
{
    match query {
        None => None,
        Some(kind) => {
            let slot = Slot {
                phase: Phase::Query,
                level: 0,
                place,
            };
            Some(fresh_slot(operation, slot, kind, device))
        }
    }
}

/// The record of a candidate, which is asked this query or none.
fn candidate_level(
    alloc: Global,
    operation: &Operation,
    place: u8,
    query: Option<Kind>,
    device: Device,
) -> Result<LevelRecord, NoMemory>
    ensures { IfOk result (λ l. l ≡
        FreshRecords.fresh_candidate operation.now.kind operation.now.target operation.now.coin
        (Slots.queried place query (record { reg = device.entry.reg.0; definition = device.entry.definition.now }))) }
{
    let mut firsts = Vec::new(alloc);
    firsts.push(act_slot(operation, false, 0, 0, device))?;
    Ok(LevelRecord {
        query: query_slot(operation, place, query, device),
        tried: false,
        index: 0,
        unfit: false,
        firsts,
        ons: Vec::new(alloc),
    })
}

/// The record of a candidate, where it is registered.
fn fresh_candidate(
    alloc: Global,
    journal: &Journal,
    operation: &Operation,
    place: u8,
    candidate: Candidate,
) -> Result<Option<LevelRecord>, NoMemory>
    ensures { IfOk result (λ l. l ≡
        option_map (FreshRecords.fresh_candidate operation.now.kind operation.now.target operation.now.coin)
        (option_map (Slots.queried place candidate.query) (Slots.device_of journal.now.history candidate.reg))) }
{
    match device_of(journal, candidate.reg) {
        None => Ok(None),
        Some(device) => {
            let level = candidate_level(alloc, operation, place, candidate.query, device)?;
            Ok(Some(level))
        }
    }
}

fn push_level(levels: &mut Vec<LevelRecord>, level: Option<LevelRecord>) -> Result<(), NoMemory>
    ensures { OnOk result (levels.new.items ≡ append_some levels.old.items level) }
{
    if let Some(level) = level {
        levels.push(level)?;
    }
    Ok(())
}

/// The records of the candidates of a plan.
fn candidates(
    alloc: Global,
    journal: &Journal,
    operation: &Operation,
    candidates: &[Candidate],
) -> Result<Vec<LevelRecord>, NoMemory>
    requires { length candidates.now ≤ MOST_DEVICES }
    ensures { IfOk result (λ levels. levels.items ≡
        map (FreshRecords.fresh_candidate operation.now.kind operation.now.target operation.now.coin)
        (Slots.queried_from 0 journal.now.history candidates.now)) }
{
    let mut levels = Vec::new(alloc);
    let mut place = 0;
    for candidate in candidates {
        let level = fresh_candidate(alloc, journal, operation, place, *candidate)?;
        push_level(&mut levels, level)?;
        place += 1;
    }
    Ok(levels)
}

/// The records of the levels of a plan.
fn levels(
    alloc: Global,
    journal: &Journal,
    operation: &Operation,
    plan: &[PlanLevel],
) -> Result<Vec<LevelRecord>, NoMemory>
    requires { AreFewDevices plan.now }
    ensures { IfOk result (λ levels. levels.items ≡
        map (FreshRecords.fresh_level operation.now.target operation.now.coin)
        (map (Slots.rank_of operation.now.kind journal.now.history) plan.now)) }
{
    let mut levels = Vec::new(alloc);
    for level in plan {
        levels.push(fresh_level(alloc, journal, operation, level)?)?;
    }
    Ok(levels)
}

/// The records of what a plan says is tried: its levels, or where no level stands its candidates.
pub fn fresh_levels(
    alloc: Global,
    journal: &Journal,
    operation: &Operation,
    plan: &Plan,
) -> Result<Vec<LevelRecord>, NoMemory>
    requires levels { AreFewDevices plan.now.levels }
    requires candidates { length plan.now.candidates ≤ MOST_DEVICES }
    ensures { IfOk result (λ levels. levels.items ≡
        FreshRecords.fresh_levels (FreshRecords.begun_by operation.now plan.now journal.now.history)) }
{
    match plan.scope {
        Scope::Nothing => candidates(alloc, journal, operation, plan.candidates.as_slice()),
        _ => levels(alloc, journal, operation, plan.levels.as_slice()),
    }
}
