// Host lists and host maps, the values of `pcmk_host_list` and `pcmk_host_map`.

ghost use Rattle.std.specs.Prelude.{◌≡◌, length};
ghost use Rattle.fnc_hosts.specs.Entries.{entries, separates};
ghost use Rattle.fnc_hosts.specs.Hosts.{host_list, host_map, host, host_pair, Gives};
ghost use Rattle.fnc_hosts.specs.declared.hosts.HostFault.TheVariants.{NoMemory};

use crate::entry::{Form, first_entry};
use fnc_journal::limits::{LONGEST_NAME, MOST_HOSTS};
use fnc_journal::{Names, Pair, Pairs, Text};
use std::alloc::Global;
use thiserror::Error;

/// Why a text of hosts cannot be read. `place` is the byte at which the entry with the fault begins.
#[derive(Debug, Drop, Error)]
pub enum HostFault {
    /// An entry of a map has no colon.
    #[error("no colon in the entry at byte {place}")]
    NoColon { place: usize },
    /// Nothing stands before the colon.
    #[error("no name in the entry at byte {place}")]
    EmptyName { place: usize },
    /// Nothing stands after the colon.
    #[error("no port in the entry at byte {place}")]
    EmptyPort { place: usize },
    /// A name has more than 255 bytes.
    #[error("a long name in the entry at byte {place}")]
    LongName { place: usize },
    /// There are more than 256 entries. This comes before all other faults.
    #[error("more than 256 entries")]
    TooMany,
    /// Memory was refused.
    #[error("no memory")]
    NoMemory,
}

impl From<fnc_journal::NoMemory> for HostFault {
    ghost from_gives = { λ _ e. e ≡ NoMemory };

    fn from(_e: fnc_journal::NoMemory) -> HostFault {
        HostFault::NoMemory
    }
}

/// The names of a host list, which commas, semicolons and spaces separate.
pub fn read_host_list(alloc: Global, text: &str) -> Result<Names, HostFault>
    ensures { Gives result (host_list text.now) }
{
    if count_entries(Form::List, text) > MOST_HOSTS {
        return Err(HostFault::TooMany);
    }
    let mut names = Names::new(alloc);
    let mut rest = text;
    while let Some(cut) = first_entry(Form::List, rest) {
        let place = text.len() - rest.len() + cut.skipped;
        names.push(host(alloc, place, cut.entry)?)?;
        rest = cut.rest;
    }
    Ok(names)
}

/// The names and ports of a host map. Semicolons and spaces separate its entries, and each is cut
/// at its first colon. A port may name several plugs, as `2,3`.
pub fn read_host_map(alloc: Global, text: &str) -> Result<Pairs, HostFault>
    ensures { Gives result (host_map text.now) }
{
    if count_entries(Form::Map, text) > MOST_HOSTS {
        return Err(HostFault::TooMany);
    }
    let mut pairs = Pairs::new(alloc);
    let mut rest = text;
    while let Some(cut) = first_entry(Form::Map, rest) {
        let place = text.len() - rest.len() + cut.skipped;
        pairs.push(pair(alloc, place, cut.entry)?)?;
        rest = cut.rest;
    }
    Ok(pairs)
}

fn count_entries(form: Form, text: &str) -> usize
    ensures { result ≡ length (entries (separates form) text.now) }
{
    let mut count = 0;
    let mut rest = text;
    while let Some(cut) = first_entry(form, rest) {
        count += 1;
        rest = cut.rest;
    }
    count
}

fn host(alloc: Global, place: usize, entry: &str) -> Result<Text, HostFault>
    ensures { Gives result (host (record { place = place; text = entry.now })) }
{
    if entry.len() > LONGEST_NAME {
        return Err(HostFault::LongName { place });
    }
    Ok(Text::new(alloc, entry)?)
}

fn pair(alloc: Global, place: usize, entry: &str) -> Result<Pair, HostFault>
    ensures { Gives result (host_pair (record { place = place; text = entry.now })) }
{
    let Some((name, port)) = entry.split_once(':') else {
        return Err(HostFault::NoColon { place });
    };
    if name.is_empty() {
        return Err(HostFault::EmptyName { place });
    }
    if port.is_empty() {
        return Err(HostFault::EmptyPort { place });
    }
    if name.len() > LONGEST_NAME {
        return Err(HostFault::LongName { place });
    }
    Ok(Pair {
        name: Text::new(alloc, name)?,
        value: Text::new(alloc, port)?,
    })
}
