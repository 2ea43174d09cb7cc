// The words of a device, as they are printed.

ghost use Rattle.std.specs.Prelude.{◌≡◌, ◌≤◌, OnOk, OnErr};
ghost use Rattle.fnc_outside.specs.Faults.{Rose};
ghost use Rattle.fnc_outside.specs.Told.{Gains};
ghost use Rattle.fnc_outside.specs.Writes.{AppendsPart};
ghost use Rattle.fnc_journal_text.specs.Parts.{part_text};
ghost use Rattle.fnc_journal_text.specs.Spelled.{base_text, device_words, nodes_words, limits_words, spaced};

use crate::parts::{Part, print_parts};
use crate::words::check_word;
use fnc_journal::{Base, Registered};
use fnc_outside::{Sink, SinkFailed};

/// Prints the words of a registered device, a space before each.
pub(crate) fn print_device<K: Sink>(device: &Registered, sink: &mut K) -> Result<(), SinkFailed>
    ensures ok { OnOk result (Gains (K.held sink.old) (K.held sink.new) (spaced (device_words device.now))) }
    ensures err { OnErr result (AppendsPart (K.held sink.old) (K.held sink.new) (spaced (device_words device.now))) }
    ensures count { K.faults sink.old ≤ K.faults sink.new }
    ensures cause { OnErr result (Rose (K.faults sink.old) (K.faults sink.new)) }
{
    print_nodes(device, sink)?;
    print_limits(device, sink)
}

/// Prints the names of a device, and what it can do for which nodes.
fn print_nodes<K: Sink>(device: &Registered, sink: &mut K) -> Result<(), SinkFailed>
    ensures ok { OnOk result (Gains (K.held sink.old) (K.held sink.new) (spaced (nodes_words device.now))) }
    ensures err { OnErr result (AppendsPart (K.held sink.old) (K.held sink.new) (spaced (nodes_words device.now))) }
    ensures count { K.faults sink.old ≤ K.faults sink.new }
    ensures cause { OnErr result (Rose (K.faults sink.old) (K.faults sink.new)) }
{
    let registration = device.registration.get();
    let definition = &registration.definition;
    print_parts(
        &[
            Part::Word(" device "),
            Part::Number(u64::from(device.reg.0)),
            Part::Word(" "),
            Part::Name(registration.name.as_str()),
            Part::Word(" "),
            Part::Name(registration.agent.as_str()),
            Part::Word(" actions="),
            Part::Actions(definition.actions),
            Part::Word(" check="),
            Part::Word(check_word(definition.check)),
            Part::Word(" hosts="),
            Part::Names(definition.hosts.as_slice()),
            Part::Word(" map="),
            Part::Map(definition.map.as_slice()),
            Part::Word(" argument="),
            Part::Optional(&definition.argument),
        ],
        sink,
    )
}

/// Prints the limits of a device, its times, and its own options.
fn print_limits<K: Sink>(device: &Registered, sink: &mut K) -> Result<(), SinkFailed>
    ensures ok { OnOk result (Gains (K.held sink.old) (K.held sink.new) (spaced (limits_words device.now))) }
    ensures err { OnErr result (AppendsPart (K.held sink.old) (K.held sink.new) (spaced (limits_words device.now))) }
    ensures count { K.faults sink.old ≤ K.faults sink.new }
    ensures cause { OnErr result (Rose (K.faults sink.old) (K.faults sink.new)) }
{
    let registration = device.registration.get();
    let definition = &registration.definition;
    print_parts(
        &[
            Part::Word(" limit="),
            Part::Cap(definition.cap),
            Part::Word(" priority="),
            Part::Signed(definition.priority),
            Part::Word(" delay="),
            base_part(&definition.base),
            Part::Word(" max="),
            Part::Number(definition.max),
            Part::Word(" keep="),
            Part::Number(definition.keep),
            Part::Word(" on="),
            Part::Allowed(&definition.on),
            Part::Word(" off="),
            Part::Allowed(&definition.off),
            Part::Word(" reboot="),
            Part::Allowed(&definition.reboot),
            Part::Word(" list="),
            Part::Allowed(&definition.list),
            Part::Word(" status="),
            Part::Allowed(&definition.status),
            Part::Own(definition.own.as_slice()),
        ],
        sink,
    )
}

/// The delay for all nodes, or node by node.
fn base_part(base: &Base) -> Part<'_>
    ensures { part_text result ≡ base_text base.now }
{
    match base {
        Base::Fixed(ms) => Part::Number(*ms),
        Base::ByNode(delays) => Part::Delays(delays.as_slice()),
    }
}
