// Requests to add and to delete a route, made on the lent words.
// A step is no method of `Change`, and asks for its room, for the reasons that step_events gives.
#![tactic(auto)]

ghost use Rattle.std.specs.Prelude.{◌≡◌, true, ◌||◌, ◌+◌, ◌*◌, eqb, ◌≤◌, length};
ghost use Rattle.layout.specs.Request.{nlm_flags, fit_add_route4, fit_del_route4};
ghost use Rattle.layout.specs.Route.{fit_route};
ghost use Rattle.definition.specs.State.{State};
ghost use Rattle.definition.specs.Words.{fit_state};
ghost use Rattle.definition.specs.Reference.Routes.{by, table_named, inserted_as, asked_route, add_route4, del_route4_request};
ghost use Rattle.definition.specs.Reference.Lookup.{listed};
ghost use Rattle.definition.specs.Reference.Insert.{list_table, create4, insert4};
ghost use Rattle.state.specs.Represents.{Represents};
ghost use Rattle.state_tables.specs.Listed.{tables_of};
ghost use Rattle.request_gateway.specs.Rows.{reached};
ghost use Rattle.step_events.specs.Comes.{ComesWhole};
ghost use Rattle.step_route_request.specs.Check.{prefsrc_check, check_all};

use layout::{AddRoute4, DelRoute4, TABLE_LIMIT, add_route4, route};
use refusal::Refusal;
use state::Stored;
use step_events::Change;

// The first row that the request names goes. No table is listed.
// That the request is fit is a clause, here and below: it is read by place and handed on as its array, so a struct would be taken apart in each.
pub fn del_route4(change: &mut Change<'_, '_>, q: &DelRoute4) -> Result<(), Refusal>
    requires fit { fit_del_route4 q.now ≡ true }
    requires in_bounds { 34 * (change.old.told + 1) ≤ length change.old.events.now }
    ensures { (st : State) → Represents change.old.state.words.now st → ComesWhole st (del_route4_request q.now st) change.old change.new result }
{
    let t = request_route::table_named(q);
    if !state_tables::listed(change.state.stored(), t) {
        return Err(Refusal::Errno(layout::NO_SUCH));
    }
    if request_route::bad_prefix(q) {
        return Err(Refusal::Errno(layout::INVALID));
    }
    let routes = change.state.stored().routes();
    let Some(place) = request_select::select_route(routes, q) else {
        return Err(Refusal::Errno(layout::NO_SUCH));
    };
    let row = routes.rows[place];
    change.del_route4(&row);
    change.state.remove_route(place);
    Ok(())
}

// The preferred source, once the table is listed.
fn prefsrc_check(
    s: Stored<'_>,
    q: &AddRoute4,
    t: u32,
    local: bool,
    linked: bool,
) -> Result<bool, Refusal>
    requires { t ≡ table_named q.now }
    ensures { (st : State) → Represents s.entry.words.now st → local ≡ (listed 255 st || eqb 255 t) → result ≡ reached (prefsrc_check q.now (by linked) (create4 (table_named q.now) st)) }
{
    if q[route::PREFSRC_PRESENT] != 1 {
        return Ok(linked);
    }
    let own = request_prefsrc::prefsrc_table(t);
    let own_listed = state_tables::listed(s, own) | (own == t);
    let routes = s.routes();
    if request_prefsrc::valid_prefsrc4(routes, q, own_listed, local) {
        return Ok(linked);
    }
    Err(Refusal::Errno(layout::INVALID))
}

// Every check before the insertion, as it comes out once the table is listed: nothing is written yet.
fn check(s: Stored<'_>, q: &AddRoute4) -> Result<bool, Refusal>
    ensures { (st : State) → Represents s.entry.words.now st → result ≡ reached (check_all q.now (create4 (table_named q.now) st)) }
{
    request_route::form_check(q)?;
    let t = request_route::table_named(q);
    let local = state_tables::listed(s, layout::TABLE_LOCAL) | (layout::TABLE_LOCAL == t);
    let default = state_tables::listed(s, layout::TABLE_DEFAULT) | (layout::TABLE_DEFAULT == t);
    let routes = s.routes();
    let linked = request_gateway::reach_check(routes, q, local, default)?;
    prefsrc_check(s, q, t, local, linked)
}

// The row is put in before its table is listed: where it has no room, nothing is written.
fn add_checked(
    change: &mut Change<'_, '_>,
    q: &AddRoute4,
    t: u32,
    linked: bool,
) -> Result<(), Refusal>
    requires s_len_bound { length (list_table t (tables_of change.old.state.words.now)) ≤ 32 }
    requires fit { fit_route (asked_route q.now linked) ≡ true }
    requires in_bounds { 34 * (change.old.told + 1) ≤ length change.old.events.now }
    ensures { (st : State) → Represents change.old.state.words.now st → fit_state st ≡ true → ComesWhole st (inserted_as (asked_route q.now linked) (insert4 (asked_route q.now linked) (nlm_flags q.now) st.routes) (create4 t st)) change.old change.new result }
{
    let new = request_route::asked_route(q, linked);
    match step_insert::insert4(&mut change.state, &new, q[add_route4::REQUEST]) {
        Ok(told) => {
            state_tables::list_table(&mut change.state, t);
            if let Some(flags) = told {
                change.new_route4(&new, flags);
            }
            Ok(())
        }
        Err(refusal) => match refusal {
            Refusal::Full => Err(Refusal::Full),
            _ => {
                state_tables::list_table(&mut change.state, t);
                Err(refusal)
            }
        },
    }
}

// The table is listed whatever comes of it, unless a list has no room.
pub fn add_route4(change: &mut Change<'_, '_>, q: &AddRoute4) -> Result<(), Refusal>
    requires fit { fit_add_route4 q.now ≡ true }
    requires in_bounds { 34 * (change.old.told + 1) ≤ length change.old.events.now }
    ensures { (st : State) → Represents change.old.state.words.now st → fit_state st ≡ true → ComesWhole st (add_route4 q.now st) change.old change.new result }
{
    let t = request_route::table_named(q);
    if TABLE_LIMIT < state_tables::tables_after(change.state.stored(), t) {
        return Err(Refusal::Full);
    }
    match check(change.state.stored(), q) {
        Err(refusal) => {
            state_tables::list_table(&mut change.state, t);
            Err(refusal)
        }
        Ok(linked) => add_checked(change, q, t, linked),
    }
}
