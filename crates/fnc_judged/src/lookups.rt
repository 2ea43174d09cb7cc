// What a journal's index finds: over journals that no fencer makes too, with numbers doubled, missing, out of order
// and huge.

use fnc_journal::{Entry, Journal, NoMemory, Reg, Req, Run};
use std::alloc::Global;
use std::mem::size_of;

/// The first entries of a number: of its request, its reply, its start and its exit.
fn firsts(alloc: Global, journal: &Journal, n: u32) -> Result<String, NoMemory> {
    let (ask, reply) = (journal.ask_at(Req(n)), journal.reply_at(Req(n)));
    let (start, exit) = (journal.start_at(Run(n)), journal.exit_at(Run(n)));
    Ok(format!(in alloc; "ask {ask:?} reply {reply:?} start {start:?} exit {exit:?}")?)
}

/// The first entry of its device, the newest entry of its operation, and the lane.
fn others(alloc: Global, journal: &Journal, n: u32) -> Result<String, NoMemory> {
    let (device, latest) = (journal.device_at(Reg(n)), journal.latest(Req(n)));
    let lane = journal.lane(Reg(n)).0;
    Ok(format!(in alloc; " device {device:?} latest {latest:?} lane {lane}")?)
}

/// Whether its run is alive, its request answered, and its request there.
fn states(alloc: Global, journal: &Journal, n: u32) -> Result<String, NoMemory> {
    let (is_alive, is_answered) = (journal.is_alive(Run(n)), journal.is_answered(Req(n)));
    let is_there = journal.request(Req(n)).is_some();
    Ok(format!(in alloc; " alive {is_alive} answered {is_answered} there {is_there}")?)
}

/// What is found by a number.
pub(crate) fn found(alloc: Global, journal: &Journal, n: u32) -> Result<String, NoMemory> {
    let mut text = firsts(alloc, journal, n)?;
    text.push_str(&others(alloc, journal, n)?)?;
    text.push_str(&states(alloc, journal, n)?)?;
    Ok(text)
}

/// The entry of the same operation before each entry.
pub(crate) fn chain(alloc: Global, journal: &Journal) -> Result<String, NoMemory> {
    let mut text = String::new(alloc);
    for index in 0..journal.len() {
        let earlier = format!(in alloc; "{:?} ", journal.earlier(index))?;
        text.push_str(earlier.as_str())?;
    }
    Ok(text)
}

/// Whether an entry takes at most 96 bytes.
pub(crate) fn size(alloc: Global) -> Result<String, NoMemory> {
    Ok(format!(in alloc; "{}", size_of::<Entry>() <= 96)?)
}
