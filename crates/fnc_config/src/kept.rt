// List answers that are kept: they are found in the journal.

ghost use Rattle.std.specs.Prelude.{◌≡◌, ◌+◌, ◌&&◌, nat_le, option_map, unwrap_or, false};
ghost use Rattle.fnc_journal.specs.declared.entry.Kind.{Kind};
ghost use Rattle.fnc_journal.specs.Exits.{is_success};
ghost use Rattle.fnc_journal.specs.Found.{request, started};
ghost use Rattle.fnc_journal.specs.Kept as Kept;
ghost use Rattle.fnc_journal.specs.Lawful.{Lawful};
ghost use Rattle.fnc_config.specs.Planning.{is_list_start, is_request_for, kept_among, listed_by};

use fnc_journal::{Definition, Ended, Event, HostCheck, Journal, Kind, Reg, Req, Run, Start};

/// The answer that a device has kept for a node at a moment: whether its list names the node.
pub(crate) fn kept_answer(
    journal: &Journal,
    reg: Reg,
    definition: &Definition,
    target: &str,
    moment: u64,
) -> Option<bool>
    requires lawful { Lawful journal.now.history }
    ensures { result ≡ Kept.kept_answer (record { reg = reg.0; definition = definition.now }) target.now moment
        journal.now.history }
{
    match definition.check {
        HostCheck::DynamicList => last_kept(journal, reg, target, definition.keep, moment),
        _ => None,
    }
}

/// What the last list says that is kept for so many milliseconds.
fn last_kept(journal: &Journal, reg: Reg, target: &str, keep: u64, moment: u64) -> Option<bool>
    ensures { result ≡ kept_among journal.now.history reg.0 target.now keep moment journal.now.history }
{
    for index in (0..journal.len()).rev() {
        let entry = journal.entry(index);
        if is_past(entry.moment, keep, moment) {
            return None;
        }
        let answer = listed_by(journal, reg, target, &entry.event);
        if answer.is_some() {
            return answer;
        }
    }
    None
}

/// Whether what was said at a moment is no longer kept at another.
fn is_past(said: u64, keep: u64, moment: u64) -> bool
    ensures { result ≡ nat_le (said + keep) moment }
{
    said <= moment && keep <= moment - said
}

fn listed_by(journal: &Journal, reg: Reg, target: &str, event: &Event) -> Option<bool>
    ensures { result ≡ listed_by journal.now.history reg.0 target.now event.now }
{
    match event {
        Event::Exit(ended) => {
            if is_list_exit(journal, reg, target, ended) {
                Some(ended.listed)
            } else {
                None
            }
        }
        _ => None,
    }
}

fn is_list_exit(journal: &Journal, reg: Reg, target: &str, ended: &Ended) -> bool
    ensures { result ≡ (is_success Kind.List ended.now.exit
        && unwrap_or (option_map (is_list_start journal.now.history reg.0 target.now)
        (started ended.now.run.0 journal.now.history)) false) }
{
    ended.exit.is_success_of(Kind::List) && is_list_run(journal, reg, target, ended.run)
}

/// Whether a run asked a registration for its list, for a request of a target.
fn is_list_run(journal: &Journal, reg: Reg, target: &str, run: Run) -> bool
    ensures { result ≡ unwrap_or (option_map (is_list_start journal.now.history reg.0 target.now)
        (started run.0 journal.now.history)) false }
{
    match journal.start_of(run) {
        Some(start) => is_list_start(journal, reg, target, start),
        None => false,
    }
}

fn is_list_start(journal: &Journal, reg: Reg, target: &str, start: &Start) -> bool
    ensures { result ≡ is_list_start journal.now.history reg.0 target.now start.now }
{
    reg.0 == start.reg.0 && Kind::List.is(start.kind) && is_request_for(journal, start.req, target)
}

fn is_request_for(journal: &Journal, req: Req, target: &str) -> bool
    ensures { result ≡ is_request_for target.now (request req.0 journal.now.history) }
{
    match journal.request(req) {
        Some(request) => request.target.is(target),
        None => false,
    }
}
