// The lines that a workload makes, and their bytes.

ghost use Rattle.std.specs.Prelude.{◌≡◌, ◌+◌, ◌≤◌, ◌++◌, [], length, decimal};
ghost use Rattle.fnc_journal.specs.declared.limits.TheConstants.{LONGEST_LINE};
ghost use Rattle.fnc_made.specs.Made.{made_text};

use fnc_outside::LineBuf;
use itoa::Buffer;

/// What a line that is made says: which device it defines; which target's first or second level it sets; or, with its
/// moment in milliseconds, whose power it asks to be cut, which run has ended with which code, or that time passes.
#[derive(Clone, Copy, Debug)]
pub enum Made {
    Device(u64),
    First(u64),
    Second(u64),
    Off(u64, u64),
    Reboot(u64, u64),
    Exit(u64, u64, u64),
    Pass(u64),
}

/// Adds a word at the end of a line.
fn put(line: &mut LineBuf, word: &str)
    requires { length line.old.bytes + length word.now ≤ line.old.size }
    ensures { line.new ≡ record line.old { bytes = line.old.bytes ++ word.now } }
{
    let _fits = line.append(word.as_bytes());
}

/// Adds a word and a number after it.
fn put_number(line: &mut LineBuf, word: &str, number: u64)
    requires { length line.old.bytes + length word.now + 40 ≤ line.old.size }
    ensures bytes { line.new.bytes ≡ line.old.bytes ++ word.now ++ decimal number }
    ensures size { line.new.size ≡ line.old.size }
    ensures short { length line.new.bytes ≤ length line.old.bytes + length word.now + 40 }
{
    put(line, word);
    put(line, Buffer::new().format(number));
}

/// Writes the line into an empty buffer.
pub fn write_line(line: &mut LineBuf, made: Made)
    requires empty { line.old.bytes ≡ [] }
    requires size { line.old.size ≡ LONGEST_LINE }
    ensures bytes { line.new.bytes ≡ made_text made }
    ensures size { line.new.size ≡ line.old.size }
{
    match made {
        Made::Device(device) => {
            put_number(line, "0 device d", device);
            put(
                line,
                " pcmk_on_timeout=10s pcmk_off_timeout=10s pcmk_reboot_timeout=10s",
            );
        }
        Made::First(node) => {
            put_number(line, "0 level 1 n", node);
            put_number(line, " d", node % 8);
        }
        Made::Second(node) => {
            put_number(line, "0 level 2 n", node);
            put_number(line, " d", (node % 8 + 1) % 8);
            put_number(line, ",d", (node % 8 + 2) % 8);
        }
        Made::Off(moment, node) => {
            put_number(line, "", moment);
            put_number(line, " ask c off n", node);
        }
        Made::Reboot(moment, node) => {
            put_number(line, "", moment);
            put_number(line, " ask c reboot n", node);
        }
        Made::Exit(moment, run, code) => {
            put_number(line, "", moment);
            put_number(line, " exit ", run);
            put_number(line, " ", code);
        }
        Made::Pass(moment) => {
            put_number(line, "", moment);
            put(line, " pass");
        }
    }
}
