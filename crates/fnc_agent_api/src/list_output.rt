// What an agent prints for `list`.

ghost use Rattle.std.specs.Prelude.{◌≡◌};
ghost use Rattle.fnc_agent_api.specs.ListOutput.{names, lists as lists_of};

use crate::blanks::trimmed;
use crate::cuts::cut;

/// Whether the output of `list` names the target. The Fence Agent API has one line per plug: the plug, a
/// comma, its alias. Each line names what stands before its first comma, and what stands between its first
/// and its second comma or its end, without the blanks around them. The bytes need not be a text.
#[tactic(auto, using(crate::proofs::LinesCut::lists_cut))]
pub fn lists(output: &[u8], target: &str) -> bool
    ensures { result ≡ lists_of output.now target.now }
{
    let mut rest = output;
    while !rest.is_empty() {
        let (line, after) = cut(rest, b'\n');
        if is_named(line, target) {
            return true;
        }
        rest = after;
    }
    false
}

fn is_named(line: &[u8], target: &str) -> bool
    ensures { result ≡ names target.now line.now }
{
    let (plug, rest) = cut(line, b',');
    let (alias, _) = cut(rest, b',');
    trimmed(plug) == target.as_bytes() || trimmed(alias) == target.as_bytes()
}
