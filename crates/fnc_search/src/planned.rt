// Whether a plan is the one that a request would have.

ghost use Rattle.std.specs.Prelude.{◌≡◌, ◌∷◌, Some, IfSome, map, option_map};
ghost use Rattle.std.specs.Bool.{OnTrue};
ghost use Rattle.fnc_journal.specs.Levels as Levels;
ghost use Rattle.fnc_journal.specs.Plan as Planned;
ghost use Rattle.fnc_journal.specs.Registered as Registered;
ghost use Rattle.fnc_search.specs.Pursued.{wanted};
ghost use Rattle.fnc_search.specs.Written.{level_before};

use crate::candidates::{next_candidate, query_of};
use crate::found::Asked;
use crate::level::{Level, Target, level_of, scoped_target, top_of};
use crate::past::Past;
use crate::pursued::Operation;
use crate::registered::current;
use crate::task::Device;
use fnc_journal::{Candidate, Journal, Kind, Plan, PlanLevel, Reg, Scope, Text};

fn same_place(written: Option<Reg>, found: Option<u32>) -> bool
    ensures { OnTrue result (written ≡ option_map Planned.reg_of found) }
{
    match (written, found) {
        (Some(written), Some(found)) => written.0 == found,
        (None, None) => true,
        _ => false,
    }
}

/// What is written after the place of a device, where it is this one.
fn after_place<'a>(
    before: &Past<'_>,
    places: &'a [Option<Reg>],
    name: &Text,
) -> Option<&'a [Option<Reg>]>
    ensures { IfSome result
        (λ rest. places.now ≡ option_map Planned.reg_of (Registered.current name.now before.now) ∷ rest.now) }
{
    let (first, rest) = places.split_first()?;
    if same_place(*first, current(before, name.as_str())) {
        Some(rest)
    } else {
        None
    }
}

fn are_places(before: &Past<'_>, places: &[Option<Reg>], names: &[Text]) -> bool
    ensures { OnTrue result
        (places.now ≡ map (λ name. option_map Planned.reg_of (Registered.current name before.now)) names.now) }
{
    let mut rest = places;
    for name in names {
        match after_place(before, rest, name) {
            Some(more) => rest = more,
            None => return false,
        }
    }
    rest.is_empty()
}

fn is_level(before: &Past<'_>, written: &PlanLevel, level: &Level<'_>) -> bool
    ensures { OnTrue result (written.now ≡ Planned.plan_level before.now level.now) }
{
    u32::from(written.index) == level.index()
        && are_places(
            before,
            written.devices.as_slice(),
            level.devices().as_slice(),
        )
}

/// What is written after a level, where there is one and it is this one.
fn after_level<'a>(
    before: &Past<'_>,
    written: &'a [PlanLevel],
    level: Option<Level<'_>>,
) -> Option<&'a [PlanLevel]>
    ensures { IfSome result (λ rest. written.now ≡ level_before before.now level.entry rest.now) }
{
    match level {
        None => Some(written),
        Some(level) => {
            let (first, rest) = written.split_first()?;
            if is_level(before, first, &level) {
                Some(rest)
            } else {
                None
            }
        }
    }
}

fn are_levels_of(before: &Past<'_>, target: &Target<'_>, written: &[PlanLevel]) -> bool
    ensures { OnTrue result (written.now ≡ map (Planned.plan_level before.now) (Levels.levels target.now before.now)) }
{
    let mut rest = written;
    for index in 0..top_of(before, target) {
        match after_level(before, rest, level_of(before, target, index)) {
            Some(more) => rest = more,
            None => return false,
        }
    }
    rest.is_empty()
}

fn are_levels(operation: &Operation<'_>, written: &[PlanLevel]) -> bool
    ensures { OnTrue result (written.now ≡ (Planned.plan (wanted operation.now) operation.now.asked.before).levels) }
{
    let before = operation.before();
    match scoped_target(operation.scope(), operation.target(), &before) {
        Some(target) => are_levels_of(&before, &target, written),
        None => written.is_empty(),
    }
}

fn same_query(written: Option<Kind>, found: Option<Kind>) -> bool
    ensures { OnTrue result (written ≡ found) }
{
    match (written, found) {
        (Some(Kind::List), Some(Kind::List))
        | (Some(Kind::Status), Some(Kind::Status))
        | (None, None) => true,
        _ => false,
    }
}

fn is_candidate(operation: &Operation<'_>, written: Candidate, device: &Device<'_>) -> bool
    ensures { OnTrue result (written ≡ Planned.candidate (wanted operation.now) operation.now.asked.before device.now) }
{
    written.reg.0 == device.reg && same_query(written.query, query_of(operation, device))
}

/// What is written after a candidate, where it is this one.
fn after_candidate<'a>(
    operation: &Operation<'_>,
    written: &'a [Candidate],
    device: &Device<'_>,
) -> Option<&'a [Candidate]>
    ensures { IfSome result (λ rest. written.now ≡ Planned.candidate (wanted operation.now) operation.now.asked.before
        device.now ∷ rest.now) }
{
    let (first, rest) = written.split_first()?;
    if is_candidate(operation, *first, device) {
        Some(rest)
    } else {
        None
    }
}

fn are_all_candidates(operation: &Operation<'_>, written: &[Candidate]) -> bool
    ensures { OnTrue result (written.now ≡ map (Planned.candidate (wanted operation.now) operation.now.asked.before)
        (Planned.candidates_among (wanted operation.now) operation.now.asked.before operation.now.asked.before)) }
{
    let mut rest = written;
    let mut after = None;
    for _ in 0..u32::MAX {
        match next_candidate(operation, after) {
            None => return rest.is_empty(),
            Some(candidate) => {
                after = Some(candidate.key());
                match after_candidate(operation, rest, &candidate.device) {
                    Some(more) => rest = more,
                    None => return false,
                }
            }
        }
    }
    false
}

fn are_candidates(operation: &Operation<'_>, written: &[Candidate]) -> bool
    ensures { OnTrue result
        (written.now ≡ (Planned.plan (wanted operation.now) operation.now.asked.before).candidates) }
{
    match operation.scope() {
        Scope::Nothing => are_all_candidates(operation, written),
        _ => written.is_empty(),
    }
}

/// Whether a plan is that of a request which would come next in a journal, at this moment.
pub fn is_plan(journal: &Journal, kind: Kind, target: &str, moment: u64, plan: &Plan) -> bool
    ensures { OnTrue result (plan.now ≡ Planned.plan
        (record { kind = kind; target = target.now; begin = moment; scope = plan.now.scope }) journal.now.history) }
{
    let asked = Asked {
        moment,
        lead: 0,
        kind,
        target,
        total: 0,
        coin: 0,
        scope: plan.scope,
        before: Past::whole(journal),
    };
    let operation = Operation::new(0, asked);
    are_levels(&operation, plan.levels.as_slice())
        && are_candidates(&operation, plan.candidates.as_slice())
}
