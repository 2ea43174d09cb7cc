// How many tries an operation will be allowed, before it begins.

ghost use Rattle.std.specs.Prelude.{◌≡◌, ◌≤◌, ℕ, length, map};
ghost use Rattle.fnc_journal.specs.Found.{Asked};
ghost use Rattle.fnc_journal.specs.Owed.{tries_of};
ghost use Rattle.fnc_journal.specs.Slots as Slots;
ghost use Rattle.fnc_ops.specs.PlanTries as PlanTries;
ghost use Rattle.fnc_ops.specs.Stands.{AreBounded, AreFewDevices};

use crate::begin::is_levelled;
use crate::fresh::{device_of, fit_device, is_unfit, splits};
use fnc_journal::limits::{MOST_DEVICES, MOST_LEVELS_OF_TARGET};
use fnc_journal::{Candidate, Definition, Journal, Kind, Plan, PlanLevel, Reg};

/// The tries of an action on a device.
fn action_tries(definition: &Definition, kind: Kind) -> u32
    ensures { result ≡ PlanTries.action_tries definition.now kind }
{
    u32::from(definition.allowed(kind).tries)
}

/// Those of a device's Act slot, or of its Off slot where the action is split.
fn first_tries(definition: &Definition, kind: Kind, split: bool) -> u32
    ensures { result ≡ PlanTries.first_tries split kind definition.now }
{
    if split {
        action_tries(definition, Kind::Off)
    } else {
        action_tries(definition, definition.acting(kind))
    }
}

/// Those of its On slot, where it has one.
fn on_tries(definition: &Definition, split: bool) -> u32
    ensures { result ≡ PlanTries.on_tries split definition.now }
{
    if split && definition.actions.on {
        action_tries(definition, Kind::On)
    } else {
        0
    }
}

/// Those of both slots at a place of a level, where a device is there and fit.
fn place_tries(journal: &Journal, kind: Kind, split: bool, place: Option<Reg>) -> u32
    ensures { result ≡ PlanTries.place_tries split kind (Slots.place_of kind journal.now.history place) }
{
    match fit_device(journal, kind, place) {
        None => 0,
        Some(device) => first_tries(device.definition, kind, split).saturating_add(on_tries(
            device.definition,
            split,
        )),
    }
}

fn places_tries(journal: &Journal, kind: Kind, split: bool, places: &[Option<Reg>]) -> u32
    ensures { result ≡ PlanTries.sum_from 0
        (map (λ p. PlanTries.place_tries split kind (Slots.place_of kind journal.now.history p)) places.now) }
{
    let mut tries: u32 = 0;
    for place in places {
        tries = tries.saturating_add(place_tries(journal, kind, split, *place));
    }
    tries
}

/// Those of all slots of a level.
fn level_tries(journal: &Journal, kind: Kind, level: &PlanLevel) -> u32
    ensures { result ≡ PlanTries.level_tries kind journal.now.history level.now }
{
    let places = level.devices.as_slice();
    if is_unfit(journal, kind, places) {
        0
    } else {
        places_tries(journal, kind, splits(kind, places.len()), places)
    }
}

fn levels_tries(journal: &Journal, kind: Kind, levels: &[PlanLevel]) -> u32
    ensures { result ≡ PlanTries.sum_from 0 (map (PlanTries.level_tries kind journal.now.history) levels.now) }
{
    let mut tries: u32 = 0;
    for level in levels {
        tries = tries.saturating_add(level_tries(journal, kind, level));
    }
    tries
}

fn query_tries(definition: &Definition, query: Option<Kind>) -> u32
    ensures { result ≡ PlanTries.query_tries definition.now query }
{
    match query {
        None => 0,
        Some(kind) => action_tries(definition, kind),
    }
}

fn act_tries(definition: &Definition, kind: Kind, levelled: bool) -> u32
    ensures { result ≡ PlanTries.act_tries levelled kind definition.now }
{
    if levelled {
        0
    } else {
        first_tries(definition, kind, false)
    }
}

/// Those of a candidate's query, and of its Act slot where candidates are tried.
fn candidate_tries(journal: &Journal, kind: Kind, levelled: bool, candidate: Candidate) -> u32
    ensures { result ≡ PlanTries.candidate_tries levelled kind journal.now.history candidate }
{
    match device_of(journal, candidate.reg) {
        None => 0,
        Some(device) => query_tries(device.definition, candidate.query).saturating_add(act_tries(
            device.definition,
            kind,
            levelled,
        )),
    }
}

fn candidates_tries(journal: &Journal, kind: Kind, levelled: bool, candidates: &[Candidate]) -> u32
    ensures { result ≡ PlanTries.sum_from 0
        (map (PlanTries.candidate_tries levelled kind journal.now.history) candidates.now) }
{
    let mut tries: u32 = 0;
    for candidate in candidates {
        tries = tries.saturating_add(candidate_tries(journal, kind, levelled, *candidate));
    }
    tries
}

fn ranked_tries(journal: &Journal, kind: Kind, levelled: bool, levels: &[PlanLevel]) -> u32
    ensures { result ≡ PlanTries.ranked_tries levelled kind journal.now.history levels.now }
{
    if levelled {
        levels_tries(journal, kind, levels)
    } else {
        0
    }
}

fn plan_tries(journal: &Journal, kind: Kind, plan: &Plan) -> u32
    ensures { result ≡ PlanTries.plan_tries kind journal.now.history plan.now }
{
    let levelled = is_levelled(plan.scope);
    candidates_tries(journal, kind, levelled, plan.candidates.as_slice()).saturating_add(
        ranked_tries(journal, kind, levelled, plan.levels.as_slice()),
    )
}

/// The allowed tries of all slots of an operation of this kind that begins now with a plan.
pub fn allowed_tries(journal: &Journal, kind: Kind, plan: &Plan) -> u32
    requires bounded { AreBounded journal.now.history }
    requires few_candidates { length plan.now.candidates ≤ MOST_DEVICES }
    requires few_levels { length plan.now.levels ≤ MOST_LEVELS_OF_TARGET }
    requires few_devices { AreFewDevices plan.now.levels }
    ensures tries { (req : ℕ) (asked : Asked) → asked.kind ≡ kind → asked.before ≡ journal.now.history →
        result ≡ tries_of (Slots.all_slots (Slots.operation_by req asked plan.now)) }
    ensures few { result ≤ 6_400 }
{
    plan_tries(journal, kind, plan)
}
