// Up to which entry a journal speaks of devices and levels.

ghost use Rattle.std.specs.Prelude.{◌≡◌, ◌+◌, ◌-◌, ◌<◌, ◌^◌, if◌then◌else◌};
ghost use Rattle.fnc_search.specs.Setup.{is_setup, setup_end};

use fnc_journal::Event;
use fnc_search::Past;

fn sets_up(event: &Event) -> bool
    ensures { result ≡ is_setup event.now }
{
    match event {
        Event::Device(_) | Event::Gone { .. } | Event::Level(_) | Event::LevelGone(_) => true,
        _ => false,
    }
}

/// The same with the entry of an index.
pub(crate) fn setup_after(earlier: u32, event: &Event, index: u32) -> u32
    requires { index < 2 ^ 32 - 1 }
    ensures { result ≡ (if is_setup event.now then index + 1 else earlier) }
{
    if sets_up(event) { index + 1 } else { earlier }
}

/// How many entries there are up to the last that speaks of devices or levels.
pub(crate) fn setup_to(past: &Past<'_>) -> u32
    ensures { result ≡ setup_end past.now }
{
    let mut setup = 0;
    for i in 0..past.len() {
        setup = setup_after(setup, &past.entry(i).event, i);
    }
    setup
}
