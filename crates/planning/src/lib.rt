// Planning: the least deviation, and the list at the front of the lent space.
#![tactic(auto)]

ghost use Rattle.std.specs.Prelude.{◌≡◌, List, ℕ};
ghost use Rattle.sheet.specs.Sheet.{Sheet};
ghost use Rattle.preparing.specs.Prepared.{Made};
ghost use Rattle.laying.specs.Laying.{Lists};
ghost use Rattle.cue.specs.Written.{width};
ghost use Rattle.sheet.specs.Cue.{sheet_caps};
ghost use Rattle.planning.specs.Planning.{planning, space_after, plan_answer, unplanned_number};
ghost use Rattle.planning.specs.declared.Unplanned.TheVariants.{Refused};

use candidates::Sources;
use laying::{finish, width};
use lines::NoRoom;
use preparing::{Prepared, Tables, prepare};
use reading::read_sheet;
use refusals::Refusal;

// How many lines, and how many words each takes.
#[derive(Clone, Copy, PartialEq, Eq, Debug)]
pub struct Extent {
    pub count: usize,
    pub width: usize,
}

// Why there is no list: a refusal of the sheet, or of a timing beside it; or 9, with as much as the list needs.
#[derive(Clone, Copy, PartialEq, Eq, Debug)]
pub enum Unplanned {
    Refused(Refusal),
    NoRoom(Extent),
}

impl Unplanned {
    // The number by which it goes outside.
    pub fn number(self) -> u8
        ensures { result ≡ unplanned_number self }
    {
        match self {
            Unplanned::Refused(refusal) => refusal.number(),
            Unplanned::NoRoom(_) => 9,
        }
    }
}

impl From<Refusal> for Unplanned {
    ghost from_gives = { λ r e. e ≡ Refused r };

    fn from(reason: Refusal) -> Unplanned {
        Unplanned::Refused(reason)
    }
}

// The sheet's number of triggers, those of them that are spare (bit 0 for trigger 1), Δ, the walk's fixings, its selections, how many words a
// line takes and the number of lines.
#[derive(Clone, Copy, PartialEq, Eq, Debug)]
pub struct CuePlan {
    pub triggers: usize,
    pub spares: u8,
    pub deviation: i64,
    pub steps: u32,
    pub selections: u32,
    pub width: usize,
    pub count: usize,
}

// The plan of a sheet, its lines at the front of the lent space.
pub fn plan(bytes: &[u8], space: &mut [i32]) -> Result<CuePlan, Unplanned>
    ensures answer { result ≡ plan_answer (planning bytes.now space.old) }
    ensures written { space.new ≡ space_after (planning bytes.now space.old) space.old }
{
    let mut tables = Tables::blank();
    let prepared = prepare(read_sheet(bytes), &mut tables)?;
    let marks = prepared.marked.marks;
    let masks = marks.kept;
    let counts = tally::tally(marks.levels, &masks, &tables.gains);
    let deviation = words::number(prepared.marked.least);
    let words = width(prepared.moments.is_some());
    let count = list_sheet(space, prepared, words, &tables).map_err(|needed| {
        Unplanned::NoRoom(Extent {
            count: needed.count,
            width: words,
        })
    })?;
    Ok(CuePlan {
        triggers: prepared.cue.places.triggers,
        spares: prepared.cue.places.spares,
        deviation,
        steps: counts.steps,
        selections: counts.selections,
        width: words,
        count,
    })
}

// The sheet's list in the space, so many words a line; or its count and no change.
fn list_sheet(
    space: &mut [i32],
    prepared: Prepared,
    words: usize,
    tables: &Tables,
) -> Result<usize, NoRoom>
    requires { (s : Sheet) × Made s tables.now prepared × (words ≡ width (sheet_caps s)) }
    ensures { (s : Sheet) → Made s tables.now prepared → words ≡ width (sheet_caps s) → Lists s space.old space.new result }
{
    let marks = prepared.marked.marks;
    let room = space.len() / words;
    let sources = Sources {
        marks: &marks,
        star: &tables.star,
        lag: &tables.lag,
        needs: &tables.needs,
    };
    let count = lines::list(space, room, sources)?;
    finish(space, count, prepared.cue.places, prepared.moments);
    Ok(count)
}
