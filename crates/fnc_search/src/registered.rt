// Which registration of a name is current, and which one it is that gives a lane its number.

ghost use Rattle.std.specs.Prelude.{◌≡◌};
ghost use Rattle.fnc_journal.specs.Missing as Missing;
ghost use Rattle.fnc_journal.specs.Registered as Registered;

use crate::found::registration;
use crate::past::Past;
use fnc_journal::Event;

fn current_after(earlier: Option<u32>, event: &Event, name: &str) -> Option<u32>
    ensures { result ≡ Registered.current_after name.now event.now earlier }
{
    match event {
        Event::Device(device) => {
            if device.registration.get().name.is(name) {
                Some(device.reg.0)
            } else {
                earlier
            }
        }
        Event::Gone { reg } => {
            if earlier == Some(reg.0) {
                None
            } else {
                earlier
            }
        }
        _ => earlier,
    }
}

/// The current registration of a name.
pub fn current(past: &Past<'_>, name: &str) -> Option<u32>
    ensures { result ≡ Registered.current name.now past.now }
{
    let mut found = None;
    for i in 0..past.setup() {
        found = current_after(found, &past.entry(i).event, name);
    }
    found
}

/// Whether a registration is the current one of its name.
pub fn is_current(past: &Past<'_>, reg: u32) -> bool
    ensures { result ≡ Registered.is_current reg past.now }
{
    match registration(past, reg) {
        Some(registration) => current(past, registration.name.as_str()) == Some(reg),
        None => false,
    }
}

fn named_here(event: &Event, name: &str) -> Option<u32>
    ensures { result ≡ Registered.named_here name.now event.now }
{
    match event {
        Event::Device(device) => {
            if device.registration.get().name.is(name) {
                Some(device.reg.0)
            } else {
                None
            }
        }
        _ => None,
    }
}

/// The lesser of two numbers, or the one that is there.
pub fn least_of(a: Option<u32>, b: Option<u32>) -> Option<u32>
    ensures { result ≡ Missing.least_of a b }
{
    match (a, b) {
        (Some(x), Some(y)) => Some(x.min(y)),
        (None, _) => b,
        _ => a,
    }
}

/// The least registration of a name.
pub fn least_registration(past: &Past<'_>, name: &str) -> Option<u32>
    ensures { result ≡ Registered.least_registration name.now past.now }
{
    let mut least = None;
    for i in 0..past.setup() {
        least = least_of(named_here(&past.entry(i).event, name), least);
    }
    least
}

/// The lane of a registration: the least one with the same name.
pub fn lane_of(past: &Past<'_>, reg: u32) -> u32
    ensures { result ≡ Registered.lane reg past.now }
{
    match registration(past, reg) {
        Some(registration) => {
            least_registration(past, registration.name.as_str()).unwrap_or(reg)
        }
        None => reg,
    }
}
