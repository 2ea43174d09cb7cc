// What is gathered of the levels of an operation.

ghost use Rattle.std.specs.Prelude.{◌≡◌, ◌||◌, if◌then◌else◌, Some, None, is_none, option_map, option_and_then};
ghost use Rattle.std.specs.Option.{option_or};
ghost use Rattle.fnc_journal.specs.Lawful.{Lawful};
ghost use Rattle.fnc_journal.specs.Acts.{acts};
ghost use Rattle.fnc_journal.specs.Levels as Levels;
ghost use Rattle.fnc_journal.specs.Slots as Slots;
ghost use Rattle.fnc_judge.specs.Places.{firsts_over, is_unfit, ons_over};
ghost use Rattle.fnc_search.specs.Placed.{placed};
ghost use Rattle.fnc_search.specs.Pursued as Pursued;
ghost use Rattle.fnc_judge.specs.Surveys as Surveys;
ghost use Rattle.fnc_judge.specs.Tours as Tours;

use crate::gathered::Gathered;
use fnc_journal::{Kind, Text};
use fnc_search::{
    Level, Operation, Past, Target, Task, act_task, level_of, on_task, placed_at, scoped_target,
    top_of,
};
use std::marker::Model;

/// A level that is not lost: its number, the slot at which it stands, and whether it is done.
#[derive(Drop)]
pub(crate) struct Kept<'a> {
    pub index: u64,
    pub standing: Option<Task<'a>>,
    pub done: bool,
}

impl<'a> Model for Kept<'a> {
    ghost use Rattle.fnc_judge.specs.Surveys as Surveys;

    ghost Value = { Surveys.Kept };

    ghost view = { λ k. record { index = k.index; standing = k.standing; done = k.done } };
}

/// Whether there are levels, the first that is not lost, and the last moment at which a slot was concluded.
#[derive(Drop)]
pub(crate) struct Survey<'a> {
    pub any: bool,
    pub kept: Option<Kept<'a>>,
    pub greatest: u128,
}

impl<'a> Model for Survey<'a> {
    ghost use Rattle.std.specs.Prelude.{◌<◌, ◌^◌};
    ghost use Rattle.fnc_judge.specs.Surveys as Surveys;

    ghost Value = { Surveys.Survey };

    ghost invariant = { λ s. s.greatest < 2 ^ 65 };

    ghost view = { λ s. record { any = s.any; kept = s.kept; greatest = s.greatest } };
}

fn first_at<'a>(
    split: bool,
    kind: Kind,
    before: &Past<'a>,
    level: u64,
    place: usize,
    name: &str,
) -> Option<Task<'a>>
    ensures { result ≡ option_map (Slots.act_task split kind level place) (placed kind before.now name.now) }
{
    let device = placed_at(kind, before, name)?;
    Some(act_task(split, kind, level, place, &device))
}

fn on_at<'a>(
    kind: Kind,
    before: &Past<'a>,
    level: u64,
    place: usize,
    name: &str,
) -> Option<Task<'a>>
    ensures { result ≡ option_and_then (Slots.on_task level place) (placed kind before.now name.now) }
{
    let device = placed_at(kind, before, name)?;
    on_task(level, place, &device)
}

/// What is gathered of the Act or Off slots of a level.
fn firsts<'a>(
    operation: &Operation<'a>,
    moment: u64,
    past: &Past<'_>,
    split: bool,
    level: u64,
    names: &[Text],
) -> Gathered<'a>
    requires { Lawful past.now }
    ensures { result
        ≡ Tours.gathered_all (Pursued.operation operation.now) moment (acts operation.now.req past.now) Tours.nothing
        (firsts_over split operation.now.asked.kind operation.now.asked.before level 0 names.now) }
{
    let before = operation.before();
    let mut found = Gathered::nothing();
    for place in 0..names.len() {
        let task = first_at(
            split,
            operation.kind(),
            &before,
            level,
            place,
            names[place].as_str(),
        );
        found = found.with_any(operation, moment, past, task);
    }
    found
}

/// What is gathered of the On slots of a level.
fn ons<'a>(
    operation: &Operation<'a>,
    moment: u64,
    past: &Past<'_>,
    level: u64,
    names: &[Text],
) -> Gathered<'a>
    requires { Lawful past.now }
    ensures { result
        ≡ Tours.gathered_all (Pursued.operation operation.now) moment (acts operation.now.req past.now) Tours.nothing
        (ons_over operation.now.asked.kind operation.now.asked.before level 0 names.now) }
{
    let before = operation.before();
    let mut found = Gathered::nothing();
    for place in 0..names.len() {
        let task = on_at(
            operation.kind(),
            &before,
            level,
            place,
            names[place].as_str(),
        );
        found = found.with_any(operation, moment, past, task);
    }
    found
}

fn is_unplaced(kind: Kind, before: &Past<'_>, name: &Text) -> bool
    ensures { result ≡ is_none (placed kind before.now name.now) }
{
    placed_at(kind, before, name.as_str()).is_none()
}

fn has_unfit(kind: Kind, before: &Past<'_>, names: &[Text]) -> bool
    ensures { result ≡ is_unfit kind before.now names.now }
{
    names.iter().any(|name| is_unplaced(kind, before, name))
}

fn is_split(kind: Kind, names: &[Text]) -> bool
    ensures { result ≡ Surveys.is_split_over kind names.now }
{
    match kind {
        Kind::Reboot => names.len() >= 2,
        _ => false,
    }
}

impl<'a> Survey<'a> {
    /// Of no levels.
    pub fn none() -> Survey<'a>
        ensures { result ≡ Surveys.none }
    {
        Survey {
            any: false,
            kept: None,
            greatest: 0,
        }
    }

    /// With one more level, of whose slots this was gathered.
    pub fn with(
        self,
        over: u128,
        moment: u64,
        index: u64,
        unfit: bool,
        firsts: Gathered<'a>,
        ons: Gathered<'a>,
    ) -> Survey<'a>
        ensures { result ≡ Surveys.surveyed_by over moment self.entry index unfit firsts.entry ons.entry }
    {
        let greatest = self.greatest.max(firsts.greatest.max(ons.greatest));
        let kept = kept_after(self.kept, over, moment, index, unfit, firsts, ons);
        Survey {
            any: true,
            kept,
            greatest,
        }
    }

    /// With one more level of an operation.
    fn with_level(
        self,
        operation: &Operation<'a>,
        moment: u64,
        past: &Past<'_>,
        level: Level<'a>,
    ) -> Survey<'a>
        requires { Lawful past.now }
        ensures { result
            ≡ Surveys.surveyed (Pursued.operation operation.now) moment (acts operation.now.req past.now) self.entry
            (Surveys.rank_over operation.now.asked.kind operation.now.asked.before level.entry) }
    {
        let names = level.devices().as_slice();
        let index = u64::from(level.index());
        let unfit = has_unfit(operation.kind(), &operation.before(), names);
        let split = is_split(operation.kind(), names);
        let acting = if unfit {
            Gathered::nothing()
        } else {
            firsts(operation, moment, past, split, index, names)
        };
        let after = if unfit || !split {
            Gathered::nothing()
        } else {
            ons(operation, moment, past, index, names)
        };
        self.with(operation.over(), moment, index, unfit, acting, after)
    }

    /// With one more level of an operation, if there is one.
    fn with_any(
        self,
        operation: &Operation<'a>,
        moment: u64,
        past: &Past<'_>,
        level: Option<Level<'a>>,
    ) -> Survey<'a>
        requires { Lawful past.now }
        ensures { result
            ≡ Surveys.surveyed_any (Pursued.operation operation.now) moment (acts operation.now.req past.now)
            self.entry
            (option_map (Surveys.rank_over operation.now.asked.kind operation.now.asked.before) level.entry) }
    {
        match level {
            Some(level) => self.with_level(operation, moment, past, level),
            None => self,
        }
    }
}

fn kept_after<'a>(
    earlier: Option<Kept<'a>>,
    over: u128,
    moment: u64,
    index: u64,
    unfit: bool,
    firsts: Gathered<'a>,
    ons: Gathered<'a>,
) -> Option<Kept<'a>>
    ensures { result
        ≡ option_or earlier.entry (if unfit || firsts.entry.lost then None else Some
        (Surveys.kept_by over moment index firsts.entry ons.entry)) }
{
    match earlier {
        Some(kept) => Some(kept),
        None => {
            if unfit || firsts.lost {
                None
            } else {
                Some(kept_by(over, moment, index, firsts, ons))
            }
        }
    }
}

fn kept_by<'a>(
    over: u128,
    moment: u64,
    index: u64,
    firsts: Gathered<'a>,
    ons: Gathered<'a>,
) -> Kept<'a>
    ensures { result ≡ Surveys.kept_by over moment index firsts.entry ons.entry }
{
    let is_over = over <= u128::from(moment);
    let done = firsts.unconfirmed.is_none() && (ons.unconcluded.is_none() || is_over);
    let standing = match firsts.unconfirmed {
        Some(task) => Some(task),
        None => ons.unconcluded,
    };
    Kept {
        index,
        standing,
        done,
    }
}

/// What is gathered of the levels that stood for a target before an operation was asked.
fn survey_target<'a>(
    operation: &Operation<'a>,
    moment: u64,
    past: &Past<'_>,
    target: &Target<'_>,
) -> Survey<'a>
    requires { Lawful past.now }
    ensures { result
        ≡ Surveys.surveyed_all (Pursued.operation operation.now) moment (acts operation.now.req past.now) Surveys.none (
        Surveys.ranks_for operation.now.asked.kind operation.now.asked.before
        (Levels.levels target.now operation.now.asked.before)) }
{
    let before = operation.before();
    let mut survey = Survey::none();
    for index in 0..top_of(&before, target) {
        let level = level_of(&before, target, index);
        survey = survey.with_any(operation, moment, past, level);
    }
    survey
}

/// What is gathered of the levels of an operation's plan.
pub(crate) fn survey_levels<'a>(
    operation: &Operation<'a>,
    moment: u64,
    past: &Past<'_>,
) -> Survey<'a>
    requires { Lawful past.now }
    ensures { result
        ≡ Surveys.surveyed_all (Pursued.operation operation.now) moment (acts operation.now.req past.now) Surveys.none
        (Pursued.operation operation.now).levels }
{
    match scoped_target(operation.scope(), operation.target(), &operation.before()) {
        Some(target) => survey_target(operation, moment, past, &target),
        None => Survey::none(),
    }
}
