// Plans, as the words of a row say them.

ghost use Rattle.std.specs.Prelude.{◌≡◌, IfOk};

use fnc_journal::{
    Candidate, Candidates, Kind, Levels, NoMemory, Places, Plan, PlanLevel, Reg, Scope,
};
use fnc_rows::Row;
use std::alloc::Global;

/// The first word of a plan in the row of a request, and its first level or candidate.
const FORM: usize = 2;

const FIRST: usize = 3;

/// The registrations of a level's devices: numbers with commas between, `-` for a device that is not registered.
fn places(alloc: Global, word: &str) -> Result<Places, NoMemory> {
    let mut places = Places::new(alloc);
    for part in word.split(',') {
        places.push(part.parse::<u32>().ok().map(Reg))?;
    }
    Ok(places)
}

/// The levels that words say, each its index and its devices.
fn levels(alloc: Global, row: &Row) -> Result<Levels, NoMemory> {
    let mut levels = Levels::new(alloc);
    for place in FIRST..row.len() {
        let (index, devices) = row.text(place).split_once(' ').unwrap_or(("", ""));
        levels.push(PlanLevel {
            index: index.parse::<u8>().unwrap_or(0),
            devices: places(alloc, devices)?,
        })?;
    }
    Ok(levels)
}

/// The query that a word names.
fn query(word: &str) -> Option<Kind> {
    match word {
        "list" => Some(Kind::List),
        "status" => Some(Kind::Status),
        _ => None,
    }
}

/// The candidates that words say, each its registration and, where it is asked, its query.
fn candidates(alloc: Global, row: &Row) -> Result<Candidates, NoMemory> {
    let mut candidates = Candidates::new(alloc);
    for place in FIRST..row.len() {
        let word = row.text(place);
        let (reg, asked) = word.split_once(' ').unwrap_or((word, ""));
        candidates.push(Candidate {
            reg: Reg(reg.parse::<u32>().unwrap_or(0)),
            query: query(asked),
        })?;
    }
    Ok(candidates)
}

/// The plan of a row, with the scope of its request: `levels|INDEX REG,REG|..` or `candidates|REG|REG QUERY|..`.
pub(crate) fn plan(alloc: Global, row: &Row, scope: Scope) -> Result<Plan, NoMemory>
    ensures { IfOk result (λ p. p.scope ≡ scope) }
{
    let has_levels = row.text(FORM) == "levels";
    Ok(Plan {
        scope,
        levels: if has_levels {
            levels(alloc, row)?
        } else {
            Levels::new(alloc)
        },
        candidates: if has_levels {
            Candidates::new(alloc)
        } else {
            candidates(alloc, row)?
        },
    })
}
