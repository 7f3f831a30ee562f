// A route put into its place among the rows.
#![tactic(auto)]

ghost use Rattle.std.specs.Prelude.{◌≡◌, true, [], ◌+◌, ◌≤◌, length};
ghost use Rattle.std.specs.Ordering.{is_lt, is_eq};
ghost use Rattle.layout.specs.Route.{fit_route};
ghost use Rattle.definition.specs.State.{State, with_routes};
ghost use Rattle.definition.specs.Words.{decode, ordered, fit_state};
ghost use Rattle.definition.specs.Reference.Insert.{insert4};
ghost use Rattle.state.specs.Represents.{Represents};
ghost use Rattle.step_insert.specs.Search.{in_front, in_run, run_start, run_end, rows_read};
ghost use Rattle.step_insert.specs.Run.{Run};
ghost use Rattle.step_insert.specs.Plan.{planned, placed, created, replacing, among, InsertedInto};

use layout::{ROUTE_LIMIT, RouteRow, route};
use refusal::Refusal;
use row_address::has;
use rows::Routes;
use state::StoredMut;
use std::cmp::Ordering;

// A row against the run: in front of it, in it, or behind. The only reader of rows in the search for the run: a word of a row to
// another destination, three at most, each once. Destinations are asked first: in one chain of `cmp` it takes twice as long.
#[tactic(auto, unfolding(layout::specs::Route::before))]
fn see(r: &RouteRow, new: &RouteRow) -> Ordering
    ensures in_front_value { is_lt result ≡ in_front new.now r.now }
    ensures in_run_value { is_eq result ≡ in_run new.now r.now }
{
    let dst = r[route::DST];
    if dst != new[route::DST] {
        return dst.cmp(&new[route::DST]);
    }
    new[route::LEN]
        .cmp(&r[route::LEN])
        .then_with(|| new[route::TABLE].cmp(&r[route::TABLE]))
}

// The run of the new row's destination, length and table stands from start up to end; so many rows were read to find it.
#[derive(Clone, Copy, Debug, PartialEq, Eq)]
pub struct FoundRun {
    pub start: usize,
    pub end: usize,
    pub read: usize,
}

// The search for the run: one pass from the first row, rows in any order (document 02, Paper 3). It reads no row twice, since `see` is
// called once for a row, and ends with the first row after the run.
pub fn find_run(routes: Routes<'_>, new: &RouteRow) -> FoundRun
    ensures start_value { (result.start ≡ run_start new.now routes.entry.rows.now) × (result.end ≡ run_end new.now routes.entry.rows.now) × (result.read ≡ rows_read new.now routes.entry.rows.now) }
    ensures start_le_end { (result.start ≤ result.end) × (result.end ≤ length routes.entry.rows.now) }
{
    let mut start = 0usize;
    for (end, r) in routes.rows.iter().enumerate() {
        match see(r, new) {
            Ordering::Less if start == end => start += 1,
            Ordering::Equal => {}
            _ => {
                return FoundRun {
                    start,
                    end,
                    read: end + 1,
                };
            }
        }
    }
    let n = routes.rows.len();
    FoundRun {
        start,
        end: n,
        read: n,
    }
}

// The rows alike the new one in table, dst, len, tos and priority stand from start up to end; whether it is there itself.
#[derive(Clone, Copy, Debug, PartialEq, Eq)]
pub struct Alike {
    pub start: usize,
    pub end: usize,
    pub there: bool,
}

// Among the rows of a run, which are all that it is lent.
pub fn alike4(run: &[RouteRow], new: &RouteRow) -> Alike
    ensures run { ordered run.now ≡ true → Run new.now run.now result.start result.end result.there }
    ensures start_le_end { (result.start ≤ result.end) × (result.end ≤ length run.now) }
{
    let start = run.partition_point(|r| row_route::before(r, new));
    let end = start + run[start..].partition_point(|r| !row_route::before(new, r));
    let there = run[start..end].contains(new);
    Alike { start, end, there }
}

// Where an insertion puts the row: a row more at a place with the flags emitted, or another row in place of one.
#[derive(Clone, Copy, Debug, PartialEq, Eq)]
pub enum Placement {
    Add(usize, u32),
    Replace(usize),
}

// The flags of a request (netlink's NLM_F_*).
const REPLACE: u32 = 0x100;

const EXCL: u32 = 0x200;

const CREATE: u32 = 0x400;

const APPEND: u32 = 0x800;

fn created(flags: u32, place: usize, emitted: u32) -> Result<Option<Placement>, Refusal>
    ensures { result ≡ created flags place emitted }
{
    refusal::unless(has(flags, CREATE), Refusal::Errno(layout::NO_ENTRY))?;
    Ok(Some(Placement::Add(place, emitted)))
}

fn replacing(start: usize, there: bool, first: bool) -> Result<Option<Placement>, Refusal>
    ensures { result ≡ replacing start there first }
{
    if first {
        return Ok(None);
    }
    refusal::unless(!there, Refusal::Errno(layout::EXISTS))?;
    Ok(Some(Placement::Replace(start)))
}

// Where some row is alike, the first of them the new one or not.
fn among(
    flags: u32,
    start: usize,
    end: usize,
    there: bool,
    first: bool,
) -> Result<Option<Placement>, Refusal>
    ensures { result ≡ among flags start end there first }
{
    refusal::unless(!has(flags, EXCL), Refusal::Errno(layout::EXISTS))?;
    if has(flags, REPLACE) {
        return replacing(start, there, first);
    }
    refusal::unless(!there, Refusal::Errno(layout::EXISTS))?;
    if has(flags, APPEND) {
        return created(flags, end, CREATE | APPEND);
    }
    created(flags, start, CREATE)
}

// Where the row is put, nothing where it is there already. Behind the search only rows of the run are read.
fn plan4(routes: Routes<'_>, new: &RouteRow, flags: u32) -> Result<Option<Placement>, Refusal>
    ensures placed { placed (length routes.entry.rows.now) result }
    ensures result_value { ordered routes.entry.rows.now ≡ true → planned new.now routes.entry.rows.now result ≡ insert4 new.now flags routes.entry.rows.now }
{
    let run = find_run(routes, new);
    let own = &routes.rows[run.start..run.end];
    let alike = alike4(own, new);
    let start = run.start + alike.start;
    let end = run.start + alike.end;
    if end <= start {
        return created(flags, start, CREATE | EXCL);
    }
    let first = *new == own[alike.start];
    among(flags, start, end, alike.there, first)
}

// A route put into its place, the rows as the definition has them: the flags to tell of it, none where it is there already. A full
// list stays as it is, and so does all but the routes, in whatever order they are.
pub fn insert4(s: &mut StoredMut<'_>, new: &RouteRow, flags: u32) -> Result<Option<u32>, Refusal>
    requires { fit_route new.now ≡ true }
    ensures inserted_into { (st : State) → Represents s.old.words.now st → fit_state st ≡ true → InsertedInto new.now flags st s.new.words.now result }
    ensures others { with_routes [] (decode s.new.words.now) ≡ with_routes [] (decode s.old.words.now) }
    ensures place { s.new.words.ghost_name ≡ s.old.words.ghost_name }
{
    let routes = s.stored().routes();
    let n = routes.rows.len();
    match plan4(routes, new, flags)? {
        Some(Placement::Add(place, emitted)) => {
            if n == ROUTE_LIMIT {
                return Err(Refusal::Full);
            }
            s.insert_route(place, new);
            Ok(Some(emitted))
        }
        Some(Placement::Replace(place)) => {
            s.replace_route(place, new);
            Ok(Some(REPLACE))
        }
        None => Ok(None),
    }
}
