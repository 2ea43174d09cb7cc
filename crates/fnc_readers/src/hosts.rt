// The hosts of a device: lists, maps, and how a device is asked for others.

use crate::joined::{joined, joined_pairs};
use fnc_hosts::{HostFault, check_kind, read_host_list, read_host_map};
use fnc_journal::{Actions, HostCheck, NoMemory};
use fnc_rows::Row;
use std::alloc::Global;

/// What is said of a row: `list|TEXT`, `list size|TEXT`, `map|TEXT`, `map size|TEXT`, or
/// `check|CHECK|LIST|MAP|ACTIONS`, whose check is `none` where one is written.
pub(crate) fn say(alloc: Global, row: &Row) -> Result<String, NoMemory> {
    match row.text(0) {
        "list" => list(alloc, row.text(1)),
        "map" => map(alloc, row.text(1)),
        "list size" => {
            let read = read_host_list(alloc, row.text(1)).map(|names| names.as_slice().len());
            size(alloc, read)
        }
        "map size" => {
            let read = read_host_map(alloc, row.text(1)).map(|pairs| pairs.as_slice().len());
            size(alloc, read)
        }
        _ => check(alloc, row),
    }
}

/// The names of a host list, or why it is none.
fn list(alloc: Global, text: &str) -> Result<String, NoMemory> {
    match read_host_list(alloc, text) {
        Ok(names) => joined(alloc, names.as_slice()),
        Err(fault) => Ok(format!(in alloc; "{fault}")?),
    }
}

/// The names and ports of a host map, or why it is none.
fn map(alloc: Global, text: &str) -> Result<String, NoMemory> {
    match read_host_map(alloc, text) {
        Ok(pairs) => joined_pairs(alloc, pairs.as_slice()),
        Err(fault) => Ok(format!(in alloc; "{fault}")?),
    }
}

/// How many entries there are, or why there are none.
fn size(alloc: Global, read: Result<usize, HostFault>) -> Result<String, NoMemory> {
    Ok(match read {
        Ok(count) => format!(in alloc; "{count}")?,
        Err(fault) => format!(in alloc; "{fault}")?,
    })
}

/// How a device with a list and a map is asked for other nodes.
fn check(alloc: Global, row: &Row) -> Result<String, NoMemory> {
    let written = match row.text(1) {
        "none" => Some(HostCheck::Nothing),
        _ => None,
    };
    let actions = Actions {
        on: true,
        off: true,
        reboot: true,
        list: row.text(4).contains("list"),
        status: row.text(4).contains("status"),
    };
    let list = read_host_list(alloc, row.text(2));
    let map = read_host_map(alloc, row.text(3));
    match (list, map) {
        (Ok(list), Ok(map)) => {
            Ok(format!(in alloc; "{:?}", check_kind(written, &list, &map, &actions))?)
        }
        _ => Ok(String::from_str(alloc, "a bad list or map")?),
    }
}
