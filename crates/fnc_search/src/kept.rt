// What devices last said of a node when they were asked for their lists.

ghost use Rattle.std.specs.Prelude.{◌≡◌};
ghost use Rattle.std.specs.Option.{option_or};
ghost use Rattle.fnc_journal.specs.Found as Found;
ghost use Rattle.fnc_journal.specs.Kept as Kept;

use crate::found::{request, start_of};
use crate::past::Past;
use crate::task::Device;
use fnc_journal::{Entry, Event, HostCheck, Kind, Start};
use std::marker::Model;

/// When a list said whether a node is in it.
#[derive(Drop)]
pub struct Listing {
    moment: u64,
    listed: bool,
}

impl Model for Listing {
    ghost use Rattle.fnc_journal.specs.Kept as Kept;

    ghost Value = { Kept.Listing };

    ghost view = { λ l. record { moment = l.moment; listed = l.listed } };
}

fn is_of_target(past: &Past<'_>, req: u32, target: &str) -> bool
    ensures { result ≡ Kept.is_of_target target.now (Found.asked req past.now) }
{
    match request(past, req) {
        Some(asked) => target == asked.target,
        None => false,
    }
}

fn is_list_run(past: &Past<'_>, reg: u32, target: &str, start: &Start) -> bool
    ensures { result ≡ Kept.is_list_run reg target.now past.now start.now }
{
    reg == start.reg.0 && Kind::List.is(start.kind) && is_of_target(past, start.req.0, target)
}

fn listing_here(past: &Past<'_>, reg: u32, target: &str, entry: &Entry) -> Option<Listing>
    ensures { result ≡ Kept.listing_here reg target.now entry.now.moment past.now entry.now.event }
{
    match &entry.event {
        Event::Exit(ended) => {
            if !ended.exit.is_success_of(Kind::List) {
                return None;
            }
            let start = start_of(past, ended.run.0)?;
            if is_list_run(past, reg, target, &start) {
                Some(Listing {
                    moment: entry.moment,
                    listed: ended.listed,
                })
            } else {
                None
            }
        }
        _ => None,
    }
}

fn listing_after(
    earlier: Option<Listing>,
    past: &Past<'_>,
    reg: u32,
    target: &str,
    entry: &Entry,
) -> Option<Listing>
    ensures { result ≡ option_or (Kept.listing_here reg target.now entry.now.moment past.now entry.now.event) earlier }
{
    match listing_here(past, reg, target, entry) {
        Some(listing) => Some(listing),
        None => earlier,
    }
}

/// The last listing of a device for a node.
fn last_listing(past: &Past<'_>, reg: u32, target: &str) -> Option<Listing>
    ensures { result ≡ Kept.last_listing reg target.now past.now }
{
    let mut found = None;
    for i in 0..past.len() {
        found = listing_after(found, &past.before(i), reg, target, past.entry(i));
    }
    found
}

fn kept_until(keep: u64, moment: u64, listing: Option<Listing>) -> Option<bool>
    ensures { result ≡ Kept.kept_until keep moment listing }
{
    let listing = listing?;
    let end = u128::from(listing.moment) + u128::from(keep);
    if u128::from(moment) < end {
        Some(listing.listed)
    } else {
        None
    }
}

/// The answer that a device has kept for a node at a moment: whether the node is in its list.
pub fn kept_answer(
    device: &Device<'_>,
    target: &str,
    moment: u64,
    before: &Past<'_>,
) -> Option<bool>
    ensures { result ≡ Kept.kept_answer device.now target.now moment before.now }
{
    match device.definition.check {
        HostCheck::DynamicList => {
            let listing = last_listing(before, device.reg, target);
            kept_until(device.definition.keep, moment, listing)
        }
        _ => None,
    }
}
