// What is gathered of an operation: of its queries and of the levels that it tries.

ghost use Rattle.std.specs.Prelude.{◌≡◌, ◌<◌, ◌^◌, ◌-◌, ◌&&◌, [], ◌∷◌, Some, None, is_some, option_map, max};
ghost use Rattle.fnc_journal.specs.Lawful.{Lawful};
ghost use Rattle.fnc_journal.specs.Acts as Acts;
ghost use Rattle.fnc_journal.specs.Due as Dues;
ghost use Rattle.fnc_journal.specs.Plan as Plan;
ghost use Rattle.fnc_journal.specs.Slots as Slots;
ghost use Rattle.fnc_journal.specs.Standing as Standing;
ghost use Rattle.fnc_judge.specs.Courses as Courses;
ghost use Rattle.fnc_search.specs.Pursued.{candidates_of};
ghost use Rattle.fnc_search.specs.Pursued as Pursued;
ghost use Rattle.fnc_search.specs.Seen.{last_of};
ghost use Rattle.fnc_judge.specs.Surveys as Surveys;

use crate::gathered::Gathered;
use crate::survey::{Survey, survey_levels};
use fnc_journal::{Kind, Phase, Scope};
use fnc_search::{
    Candidate, Device, Last, Operation, Past, Task, act_task, device_of, is_idle, looked_at,
    next_candidate, query_of,
};
use std::marker::Model;

/// What is gathered of the queries, and of the capable candidates as levels, of which the next has
/// this number.
#[derive(Drop)]
pub(crate) struct Course<'a> {
    pub queries: Gathered<'a>,
    pub survey: Survey<'a>,
    index: u64,
}

impl<'a> Model for Course<'a> {
    ghost use Rattle.fnc_judge.specs.Courses as Courses;

    ghost Value = { Courses.Course };

    ghost view = { λ c. record { queries = c.queries; survey = c.survey; index = c.index } };
}

#[tactic(auto, using(fnc_search::proofs::Looks::answered_same))]
fn is_answered(operation: &Operation<'_>, past: &Past<'_>, task: &Task<'_>) -> bool
    requires { Lawful past.now }
    ensures { result
        ≡ Standing.capable_query (Pursued.operation operation.now) (Acts.acts operation.now.req past.now)
        (Some task.now) }
{
    let seen = looked_at(past, operation.req(), task, operation.over());
    capable_by(task.kind(), seen.listed, seen.is_answered(task))
}

fn is_capable(operation: &Operation<'_>, past: &Past<'_>, query: &Option<Task<'_>>) -> bool
    requires { Lawful past.now }
    ensures { result
        ≡ Standing.capable_query (Pursued.operation operation.now) (Acts.acts operation.now.req past.now) query.now }
{
    match query {
        None => true,
        Some(task) => is_answered(operation, past, task),
    }
}

fn capable_by(kind: Kind, listed: bool, answered: bool) -> bool
    ensures { result ≡ Standing.capable_by kind listed answered }
{
    match kind {
        Kind::List => listed,
        _ => answered,
    }
}

/// With one more candidate as a level of its own.
fn with_device<'a>(
    survey: Survey<'a>,
    operation: &Operation<'_>,
    moment: u64,
    past: &Past<'_>,
    index: u64,
    device: &Device<'a>,
) -> Survey<'a>
    requires { Lawful past.now }
    ensures { result
        ≡ Surveys.surveyed (Pursued.operation operation.now) moment (Acts.acts operation.now.req past.now)
        survey.entry (Slots.rank operation.now.asked.kind index (Some device.now ∷ [])) }
{
    let task = act_task(false, operation.kind(), index, 0, device);
    let acting = Gathered::nothing().with(operation, moment, past, &task);
    survey.with(
        operation.over(),
        moment,
        index,
        false,
        acting,
        Gathered::nothing(),
    )
}

fn queried<'a>(place: usize, query: Option<Kind>, device: &Device<'a>) -> Option<Task<'a>>
    ensures { result ≡ option_map (λ kind. Slots.task Phase.Query kind 0 place device.now) query }
{
    let kind = query?;
    Some(Task::on_device(Phase::Query, kind, 0, place, device))
}

impl<'a> Course<'a> {
    /// Of no candidates.
    fn start() -> Course<'a>
        ensures { result ≡ Courses.start }
    {
        Course {
            queries: Gathered::nothing(),
            survey: Survey::none(),
            index: 1,
        }
    }

    /// Whether a query is not concluded.
    fn waits(&self) -> bool
        ensures { result ≡ is_some self.now.queries.unconcluded }
    {
        self.queries.unconcluded.is_some()
    }

    /// With one more candidate.
    fn with(
        self,
        operation: &Operation<'_>,
        moment: u64,
        past: &Past<'_>,
        device: &Device<'a>,
        query: Option<Task<'a>>,
    ) -> Course<'a>
        requires few { self.index < 2 ^ 64 - 1 }
        requires lawful { Lawful past.now }
        ensures { result
            ≡ Courses.coursed (Pursued.operation operation.now) moment (Acts.acts operation.now.req past.now)
            self.entry (record { device = device.now; query = query.entry }) }
    {
        if is_capable(operation, past, &query) {
            Course {
                queries: self.queries.with_any(operation, moment, past, query),
                survey: with_device(self.survey, operation, moment, past, self.index, device),
                index: self.index + 1,
            }
        } else {
            Course {
                queries: self.queries.with_any(operation, moment, past, query),
                survey: self.survey,
                index: self.index,
            }
        }
    }

    /// With the candidate of a place.
    fn with_candidate(
        self,
        operation: &Operation<'a>,
        moment: u64,
        past: &Past<'_>,
        place: usize,
        candidate: &Device<'a>,
    ) -> Course<'a>
        requires few { self.index < 2 ^ 64 - 1 }
        requires lawful { Lawful past.now }
        ensures { result
            ≡ Courses.coursed_any (Pursued.operation operation.now) moment (Acts.acts operation.now.req past.now)
            self.entry (Pursued.queried_at operation.now place candidate.now) }
    {
        let query = query_of(operation, candidate);
        match device_of(&operation.before(), candidate.reg()) {
            Some(device) => {
                let task = queried(place, query, &device);
                self.with(operation, moment, past, &device, task)
            }
            None => self,
        }
    }
}

/// What is gathered of the candidates of an operation.
fn candidates<'a>(operation: &Operation<'a>, moment: u64, past: &Past<'_>) -> Course<'a>
    requires { Lawful past.now }
    ensures { result
        ≡ Courses.coursed_all (Pursued.operation operation.now) moment (Acts.acts operation.now.req past.now)
        Courses.start (candidates_of operation.now) }
{
    let most = operation.before().len();
    let mut course = Course::start();
    let mut after = None;
    for place in 0..most {
        match next_candidate(operation, after) {
            Some(candidate) => {
                after = Some(candidate.key());
                course = course.with_candidate(
                    operation,
                    moment,
                    past,
                    place as usize,
                    candidate.device(),
                );
            }
            None => return course,
        }
    }
    course
}

/// What is gathered of the candidates of an operation up to the first whose query is not concluded: nothing
/// behind it tells where the operation stands.
fn candidates_until<'a>(operation: &Operation<'a>, moment: u64, past: &Past<'_>) -> Course<'a>
    requires { Lawful past.now }
    ensures { Courses.stand (Courses.tried result)
        ≡ Courses.stand (Courses.tried (Courses.coursed_all (Pursued.operation operation.now) moment
        (Acts.acts operation.now.req past.now) Courses.start (candidates_of operation.now))) }
{
    let most = operation.before().len();
    let mut course = Course::start();
    let mut after = None;
    for place in 0..most {
        if course.waits() {
            return course;
        }
        match next_candidate(operation, after) {
            Some(candidate) => {
                after = Some(candidate.key());
                course = course.with_candidate(
                    operation,
                    moment,
                    past,
                    place as usize,
                    candidate.device(),
                );
            }
            None => return course,
        }
    }
    course
}

/// The answer to an operation. The level that passed may have any number.
#[derive(Clone, Copy)]
pub(crate) enum Due {
    Passed(u64),
    Levels,
    Time,
    NoDevice,
    Confirmed,
}

fn tried(course: Course<'_>) -> Course<'_>
    ensures { result ≡ Courses.tried course.entry }
{
    if course.queries.unconcluded.is_none() {
        course
    } else {
        Course {
            queries: course.queries,
            survey: Survey::none(),
            index: course.index,
        }
    }
}

/// What is gathered of an operation.
fn course_of<'a>(operation: &Operation<'a>, moment: u64, past: &Past<'_>) -> Course<'a>
    requires { Lawful past.now }
    ensures { result ≡ Courses.course_of operation.now moment (Acts.acts operation.now.req past.now) }
{
    match operation.scope() {
        Scope::Nothing => tried(candidates(operation, moment, past)),
        _ => Course {
            queries: Gathered::nothing(),
            survey: survey_levels(operation, moment, past),
            index: 1,
        },
    }
}

/// What of it tells where an operation stands.
fn course_until<'a>(operation: &Operation<'a>, moment: u64, past: &Past<'_>) -> Course<'a>
    requires { Lawful past.now }
    ensures { Courses.stand result
        ≡ Courses.stand (Courses.course_of operation.now moment (Acts.acts operation.now.req past.now)) }
{
    match operation.scope() {
        Scope::Nothing => tried(candidates_until(operation, moment, past)),
        _ => Course {
            queries: Gathered::nothing(),
            survey: survey_levels(operation, moment, past),
            index: 1,
        },
    }
}

fn standing_by(course: Course<'_>) -> Option<Task<'_>>
    ensures { result ≡ Courses.standing_by course.entry.queries course.entry.survey }
{
    match course.queries.unconcluded {
        Some(task) => Some(task),
        None => {
            let kept = course.survey.kept?;
            kept.standing
        }
    }
}

/// The slot at which an operation stands at a moment.
pub(crate) fn standing<'a>(
    operation: &Operation<'a>,
    moment: u64,
    past: &Past<'_>,
) -> Option<Task<'a>>
    requires { Lawful past.now }
    ensures { result
        ≡ Standing.standing (Pursued.operation operation.now) moment (Acts.acts operation.now.req past.now) }
{
    standing_by(course_until(operation, moment, past))
}

fn time_by(over: u128, moment: u64) -> Option<Due>
    ensures { result ≡ Courses.time_by over moment }
{
    if over <= u128::from(moment) {
        Some(Due::Time)
    } else {
        None
    }
}

fn passed_by(survey: &Survey<'_>) -> Option<Due>
    ensures { result ≡ Courses.passed_by survey.now }
{
    match &survey.kept {
        Some(kept) => {
            if kept.done {
                Some(Due::Passed(kept.index))
            } else {
                None
            }
        }
        None => None,
    }
}

fn failure_by(course: &Course<'_>, over: u128, moment: u64) -> Option<Due>
    ensures { result ≡ Courses.failure_by over moment course.now.queries course.now.survey }
{
    let concluded = course.queries.unconcluded.is_none();
    if course.survey.any {
        if concluded && course.survey.kept.is_none() {
            return Some(Due::Levels);
        }
    } else if concluded {
        return Some(Due::NoDevice);
    }
    time_by(over, moment)
}

fn due_by(course: &Course<'_>, over: u128, moment: u64) -> Option<Due>
    ensures { result ≡ Courses.due_by over moment course.now.queries course.now.survey }
{
    match passed_by(&course.survey) {
        Some(passed) => Some(passed),
        None => failure_by(course, over, moment),
    }
}

/// The answer that is due to an operation by its acts alone.
pub(crate) fn due_by_acts(operation: &Operation<'_>, moment: u64, past: &Past<'_>) -> Option<Due>
    requires { Lawful past.now }
    ensures { option_map Courses.answer_of result
        ≡ Dues.due_by_acts (Pursued.operation operation.now) moment (Acts.acts operation.now.req past.now) }
{
    due_by(
        &course_until(operation, moment, past),
        operation.over(),
        moment,
    )
}

fn since_by(course: &Course<'_>, begin: u64) -> u128
    ensures since { result ≡ Courses.since_by begin course.now }
    ensures small { result < 2 ^ 65 }
{
    let greatest = course.survey.greatest.max(u128::from(begin));
    course.queries.greatest.max(greatest)
}

/// Since when an operation stands where it stands: since it began, while no run of it was started.
fn since(operation: &Operation<'_>, moment: u64, past: &Past<'_>) -> u128
    requires { Lawful past.now }
    ensures since { result
        ≡ Standing.since (Pursued.operation operation.now) moment (Acts.acts operation.now.req past.now) }
    ensures small { result < 2 ^ 65 }
{
    if is_idle(past, operation.req()) {
        return u128::from(operation.begin());
    }
    since_by(&course_of(operation, moment, past), operation.begin())
}

/// When the next try of a slot is ready.
pub(crate) fn ready(
    operation: &Operation<'_>,
    moment: u64,
    past: &Past<'_>,
    task: &Task<'_>,
) -> Option<u128>
    requires { Lawful past.now }
    ensures { result
        ≡ Standing.ready (Pursued.operation operation.now) moment (Acts.acts operation.now.req past.now) task.now }
{
    let seen = looked_at(past, operation.req(), task, operation.over());
    ready_after(operation, moment, past, task, seen.last)
}

fn ready_after(
    operation: &Operation<'_>,
    moment: u64,
    past: &Past<'_>,
    task: &Task<'_>,
    last: Last,
) -> Option<u128>
    requires { Lawful past.now }
    ensures { (l : Acts.Last) → last ≡ last_of l → result ≡ Standing.ready_after (Pursued.operation operation.now)
        moment (Acts.acts operation.now.req past.now) task.now l }
{
    match last {
        Last::NoRun => {
            let delay = task.delay(operation.target(), operation.coin());
            Some(since(operation, moment, past) + u128::from(delay))
        }
        Last::Alive(_) => None,
        Last::EndedAt(at) => Some(u128::from(at)),
    }
}
