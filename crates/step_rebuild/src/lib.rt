// One event of a recording done again, on words that hold the rows rebuilt so far: those of a state with these routes alone.
#![tactic(auto)]

ghost use Rattle.std.specs.Prelude.{◌≡◌, true, false, ◌&&◌, ◌<◌, List, MatchResult, IfSome, leb, length, position};
ghost use Rattle.lists.specs.Lists.{Row, eq_row};
ghost use Rattle.layout.specs.Route.{fit_route};
ghost use Rattle.refusal.specs.Refusal.{unless};
ghost use Rattle.definition.specs.Words.{ordered};
ghost use Rattle.definition_recording.specs.Recording.{event as Recording·event, rows as Recording·rows};
ghost use Rattle.definition_recording.specs.Recording.{flags, route_row, fit_address_event, fit_new_route, fit_del_route, fit_mark, provided, added_row, deleted_row, after_down, after_last};
ghost use Rattle.step_rebuild.specs.Holds.{HoldsRows, Came};
ghost use Rattle.step_rebuild.specs.Laws.{IsPlace};

use layout::{EventRow, ROUTE_LIMIT, RouteRow, event};
use refusal::Refusal;
use row_address::has;
use state::StoredMut;

// The flags of a new route (netlink's NLM_F_*).
const REPLACE: u32 = 0x100;

const APPEND: u32 = 0x800;

// The most that a new route's flags may be.
const FLAGS_MOST: u32 = 65535;

// An event of an address has no flags, a fit row, and zeros behind it.
fn fit_address(e: &EventRow) -> Result<(), Refusal>
    ensures { result ≡ unless (fit_address_event e.now) Refusal.UnfitEvent }
{
    let fit = row_address::fit_address(&e[event::ROW..event::BEHIND_ADDRESS]).is_some();
    let zero = words::all_zero(&e[event::BEHIND_ADDRESS..]);
    refusal::unless((e[event::FLAGS] == 0) & fit & zero, Refusal::UnfitEvent)
}

// A mark has zeros behind its number.
fn fit_mark(e: &EventRow) -> Result<(), Refusal>
    ensures { result ≡ unless (fit_mark e.now) Refusal.UnfitEvent }
{
    refusal::unless(words::all_zero(&e[event::FLAGS..]), Refusal::UnfitEvent)
}

// The route of an event that has a fit one, and flags of at most so much.
fn fit_route(e: &EventRow, most: u32) -> Result<&RouteRow, Refusal>
    ensures { MatchResult result
        (λ r. (r.now ≡ route_row e.now) × (leb (flags e.now) most && fit_route (route_row e.now) ≡ true))
        (λ x. (x ≡ Refusal.UnfitEvent) × (leb (flags e.now) most && fit_route (route_row e.now) ≡ false)) }
{
    refusal::unless(e[event::FLAGS] <= most, Refusal::UnfitEvent)?;
    row_route::fit_route(&e[event::ROW..]).ok_or(Refusal::UnfitEvent)
}

// A row put in, or in place of the first alike one, unless it is there already, or can't be. The rows are in order, so the alike ones
// are found by halves.
fn add(s: &mut StoredMut<'_>, row: &RouteRow, flags: u32) -> Result<(), Refusal>
    requires { fit_route row.now ≡ true }
    ensures came { (l : List Row) → HoldsRows s.old.words.now l → Came (added_row row.now flags l) s.new.words.now result }
    ensures place { s.new.words.ghost_name ≡ s.old.words.ghost_name }
{
    let rows = s.stored().routes().rows;
    let n = rows.len();
    let alike = step_insert::alike4(rows, row);
    refusal::unless(!alike.there, Refusal::UnfitEvent)?;
    if has(flags, REPLACE) {
        refusal::unless(alike.start < alike.end, Refusal::UnfitEvent)?;
        s.replace_route(alike.start, row);
        return Ok(());
    }
    refusal::unless(n < ROUTE_LIMIT, Refusal::UnfitEvent)?;
    let place = if has(flags, APPEND) {
        alike.end
    } else {
        alike.start
    };
    s.insert_route(place, row);
    Ok(())
}

// The place of the row among any rows.
fn find_in(rows: &[RouteRow], row: &RouteRow) -> Option<usize>
    ensures { result ≡ position (eq_row row.now) rows.now }
{
    rows.iter().position(|r| *row == *r)
}

// The place of the row among rows in order, of which those before it are passed by halves.
fn find_row(rows: &[RouteRow], row: &RouteRow) -> Option<usize>
    ensures place { ordered rows.now ≡ true → IsPlace row.now rows.now result }
    ensures bound { IfSome result (λ i. i < length rows.now) }
{
    let start = rows.partition_point(|r| row_route::before(r, row));
    let i = find_in(&rows[start..], row)?;
    Some(start + i)
}

// A row taken out, if it is there.
fn delete(s: &mut StoredMut<'_>, row: &RouteRow) -> Result<(), Refusal>
    ensures came { (l : List Row) → HoldsRows s.old.words.now l → Came (deleted_row row.now l) s.new.words.now result }
    ensures place { s.new.words.ghost_name ≡ s.old.words.ghost_name }
{
    let i = find_row(s.stored().routes().rows, row).ok_or(Refusal::UnfitEvent)?;
    s.remove_route(i);
    Ok(())
}

fn new_route4(s: &mut StoredMut<'_>, e: &EventRow) -> Result<(), Refusal>
    ensures came { (l : List Row) → HoldsRows s.old.words.now l
        → Came (provided (fit_new_route e.now) (added_row (route_row e.now) (flags e.now) l)) s.new.words.now result }
    ensures place { s.new.words.ghost_name ≡ s.old.words.ghost_name }
{
    let row = fit_route(e, FLAGS_MOST)?;
    add(s, row, e[event::FLAGS])
}

fn del_route4(s: &mut StoredMut<'_>, e: &EventRow) -> Result<(), Refusal>
    ensures came { (l : List Row) → HoldsRows s.old.words.now l
        → Came (provided (fit_del_route e.now) (deleted_row (route_row e.now) l)) s.new.words.now result }
    ensures place { s.new.words.ghost_name ≡ s.old.words.ghost_name }
{
    let row = fit_route(e, 0)?;
    delete(s, row)
}

// The device's routes go, but for those of host scope.
fn link_down(s: &mut StoredMut<'_>, e: &EventRow) -> Result<(), Refusal>
    ensures came { (l : List Row) → HoldsRows s.old.words.now l → Came (provided (fit_mark e.now) (Recording·rows (after_down l))) s.new.words.now result }
    ensures place { s.new.words.ghost_name ≡ s.old.words.ghost_name }
{
    fit_mark(e)?;
    state_retain::down(s);
    Ok(())
}

// All of the device's routes go.
fn ip_disabled(s: &mut StoredMut<'_>, e: &EventRow) -> Result<(), Refusal>
    ensures came { (l : List Row) → HoldsRows s.old.words.now l → Came (provided (fit_mark e.now) (Recording·rows (after_last l))) s.new.words.now result }
    ensures place { s.new.words.ghost_name ≡ s.old.words.ghost_name }
{
    fit_mark(e)?;
    state_retain::deviceless(s);
    Ok(())
}

// An event onto the rows. Where it is refused nothing is said of the rows.
pub fn event(s: &mut StoredMut<'_>, e: &EventRow) -> Result<(), Refusal>
    ensures came { (l : List Row) → HoldsRows s.old.words.now l → Came (Recording·event e.now l) s.new.words.now result }
    ensures place { s.new.words.ghost_name ≡ s.old.words.ghost_name }
{
    match e[event::KIND] {
        event::NEW_ADDR4 | event::DEL_ADDR4 => fit_address(e),
        event::NEW_ROUTE4 => new_route4(s, e),
        event::DEL_ROUTE4 => del_route4(s, e),
        event::LINK_DOWN => link_down(s, e),
        event::IP_DISABLED => ip_disabled(s, e),
        _ => Err(Refusal::UnknownEvent),
    }
}
