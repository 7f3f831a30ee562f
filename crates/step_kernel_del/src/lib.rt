// The route that a deletion names, taken out and told.
// A step is no method of `Change`, and asks for its room, for the reasons that step_events gives.
#![tactic(auto)]

ghost use Rattle.std.specs.Prelude.{◌≡◌, ◌+◌, ◌*◌, ◌≤◌, ◌<◌, length, position};
ghost use Rattle.definition.specs.State.{State};
ghost use Rattle.definition.specs.Words.{route_count};
ghost use Rattle.definition.specs.Reference.Insert.{matches, kernel_del4};
ghost use Rattle.state.specs.Represents.{Represents};
ghost use Rattle.step_events.specs.Emits.{Emits};

use layout::{RouteRow, route};
use rows::Routes;
use step_events::Change;

// Whether the deletion of p names r. Most rows are to other destinations, so that is asked first. No equality: a priority of 0 names
// any, and gateway and metrics aren't asked.
#[tactic(auto, unfolding(definition::specs::Reference::Insert::matches))]
fn matches(p: &RouteRow, r: &RouteRow) -> bool
    ensures { result ≡ matches p.now r.now }
{
    if r[route::DST] != p[route::DST] {
        return false;
    }
    (r[route::TABLE] == p[route::TABLE])
        & (r[route::LEN] == p[route::LEN])
        & (r[route::TOS] == p[route::TOS])
        & (r[route::KIND] == p[route::KIND])
        & (r[route::SCOPE] == p[route::SCOPE])
        & (r[route::PREFSRC_PRESENT] == p[route::PREFSRC_PRESENT])
        & (r[route::PREFSRC] == p[route::PREFSRC])
        & (r[route::PROTO] == p[route::PROTO])
        & (r[route::DEVICE] == p[route::DEVICE])
        & ((p[route::PRIORITY] == 0) | (r[route::PRIORITY] == p[route::PRIORITY]))
}

// The place of the first row that p names.
fn find_match(routes: Routes<'_>, p: &RouteRow) -> Option<usize>
    ensures { result ≡ position (matches p.now) routes.entry.rows.now }
{
    routes.rows.iter().position(|r| matches(p, r))
}

// The first row that p names goes, if there is one. Where there is no route there need be no room for its event.
pub fn kernel_del4(change: &mut Change<'_, '_>, p: &RouteRow)
    requires in_bounds { 0 < route_count change.old.state.words.now → 34 * (change.old.told + 1) ≤ length change.old.events.now }
    ensures upper_bound { change.new.told ≤ change.old.told + 1 }
    ensures emits { (st : State) → Represents change.old.state.words.now st → Emits (kernel_del4 p.now st) change.old change.new }
{
    let routes = change.state.stored().routes();
    let Some(i) = find_match(routes, p) else {
        return;
    };
    let row = routes.rows[i];
    change.del_route4(&row);
    change.state.remove_route(i);
}
