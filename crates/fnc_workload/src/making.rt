// Which line a workload makes next.

ghost use Rattle.std.specs.Prelude.{◌≡◌, ◌≤◌, ◌<◌, ◌^◌, ◌+◌};
ghost use Rattle.fnc_workload.specs.Steps as Steps;

use fnc_made::Made;

/// What a draw multiplies the state by.
const FACTOR: u64 = 6_364_136_223_846_793_005;

/// What a draw adds to the state.
const SUMMAND: u64 = 1_442_695_040_888_963_407;

/// What a draw leaves out of the state: the lower bits.
const LOWER_BITS: u64 = 8_589_934_592;

/// How many devices there are.
const DEVICES: u32 = 8;

/// How many lines come before the first step: one for each device, and two for each of 32 targets.
const OPENING: u32 = 72;

/// How a workload stands between two lines: the state of its draws, its moment in milliseconds, and how many lines of
/// its opening and of its steps were made.
#[derive(Clone, Copy, Debug)]
pub(crate) struct Making {
    pub state: u64,
    pub moment: u64,
    pub made: u32,
}

/// A line, and how the workload stands after it.
#[derive(Clone, Copy, Debug)]
pub(crate) struct Next {
    pub line: Made,
    pub making: Making,
}

/// The state of the draws after one more.
fn drawn(state: u64) -> u64
    ensures { result ≡ Steps.drawn state }
{
    state.wrapping_mul(FACTOR).wrapping_add(SUMMAND)
}

/// What a state answers to a draw of a number below a bound.
fn below(state: u64, bound: u64) -> u64
    requires { 1 ≤ bound }
    ensures { result ≡ Steps.below state bound }
{
    state / LOWER_BITS % bound
}

/// A line of the opening, by its number.
fn opening(number: u32) -> Made
    ensures { result ≡ Steps.opening number }
{
    if number < DEVICES {
        Made::Device(u64::from(number))
    } else if (number - DEVICES) % 2 == 0 {
        Made::First(u64::from((number - DEVICES) / 2))
    } else {
        Made::Second(u64::from((number - DEVICES) / 2))
    }
}

/// A request: its target is drawn, and then its action.
fn asking(moment: u64, state: u64, made: u32) -> Next
    requires { made < 2 ^ 31 }
    ensures { result ≡ Steps.asking moment state made }
{
    let aimed = drawn(state);
    let acting = drawn(aimed);
    let node = below(aimed, 32);
    Next {
        line: if below(acting, 2) == 1 {
            Made::Reboot(moment, node)
        } else {
            Made::Off(moment, node)
        },
        making: Making {
            state: acting,
            moment,
            made: made + 1,
        },
    }
}

/// The end of a run: its code is drawn.
fn ending(moment: u64, state: u64, made: u32, run: u32) -> Next
    requires { made < 2 ^ 31 }
    ensures { result ≡ Steps.ending moment state made run }
{
    let coded = drawn(state);
    let code = if below(coded, 4) == 0 { 1 } else { 0 };
    Next {
        line: Made::Exit(moment, u64::from(run), code),
        making: Making {
            state: coded,
            moment,
            made: made + 1,
        },
    }
}

/// Only time passes.
fn passing(moment: u64, state: u64, made: u32) -> Next
    requires { made < 2 ^ 31 }
    ensures { result ≡ Steps.passing moment state made }
{
    Next {
        line: Made::Pass(moment),
        making: Making {
            state,
            moment,
            made: made + 1,
        },
    }
}

/// A step: its moment is drawn, and then what it does; a run ends only where one is alive.
fn step(making: Making, alive: Option<u32>) -> Next
    requires few { making.made < 2 ^ 31 }
    requires early { making.moment < 2 ^ 62 }
    ensures { result ≡ Steps.step making alive }
{
    let timed = drawn(making.state);
    let chosen = drawn(timed);
    let moment = making.moment + below(timed, 2000);
    let choice = below(chosen, 4);
    if choice == 0 {
        asking(moment, chosen, making.made)
    } else if choice == 3 {
        passing(moment, chosen, making.made)
    } else {
        match alive {
            None => passing(moment, chosen, making.made),
            Some(run) => ending(moment, chosen, making.made, run),
        }
    }
}

impl Making {
    /// The line that comes next, with the least run that is alive, after which there are `count` steps in all; None
    /// where all steps were made and no run is alive.
    pub fn next(self, count: u32, alive: Option<u32>) -> Option<Next>
        requires few { count ≤ 100_000 }
        requires early { self.moment < 2 ^ 62 }
        ensures { result ≡ Steps.next self count alive }
    {
        if self.made < OPENING {
            return Some(Next {
                line: opening(self.made),
                making: Making {
                    made: self.made + 1,
                    ..self
                },
            });
        }
        if self.made < OPENING + count {
            return Some(step(self, alive));
        }
        let run = alive?;
        let moment = self.moment + 1;
        Some(Next {
            line: Made::Exit(moment, u64::from(run), 0),
            making: Making { moment, ..self },
        })
    }
}
