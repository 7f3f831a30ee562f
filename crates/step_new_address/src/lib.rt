// Routes and addresses put in and told: a row of routes, a new address with what it brings, an address changed.
// A step is no method of `Change`, and asks for its room, for the reasons that step_events gives.
#![tactic(auto)]

ghost use Rattle.std.specs.Prelude.{◌≡◌, true, [], ◌+◌, ◌*◌, ◌≤◌, ◌<◌, length, get_or};
ghost use Rattle.lists.specs.Place.{place_of};
ghost use Rattle.layout.specs.Address.{fit_address};
ghost use Rattle.layout.specs.Request.{fit_add_v4};
ghost use Rattle.definition.specs.State.{State};
ghost use Rattle.definition.specs.Words.{fit_state, address_count};
ghost use Rattle.definition.specs.Reference.Addresses.{goes, install, new_address, moved, change_v4, same_address};
ghost use Rattle.state.specs.Represents.{Represents};
ghost use Rattle.step_events.specs.Comes.{Comes};
ghost use Rattle.step_events.specs.Tells.{TellsAtMost};
ghost use Rattle.step_new_address.specs.Adding.{AddsFrom};

use layout::{ADDRESS_LIMIT, AddV4, AddressRow, address};
use life::Nanoseconds;
use refusal::Refusal;
use rows::{Routes, Rows};
use step_events::Change;

// The routes, in order.
pub fn install(change: &mut Change<'_, '_>, routes: Routes<'_>) -> Result<(), Refusal>
    requires in_bounds { 34 * (change.old.told + length routes.rows.now) ≤ length change.old.events.now }
    ensures told { TellsAtMost (length routes.entry.rows.now) change.old change.new }
    ensures addresses { address_count change.new.state.words.now ≡ address_count change.old.state.words.now }
    ensures adds_from { AddsFrom (install routes.entry.rows.now) change.old change.new result }
{
    for row in routes.rows {
        step_kernel_add::kernel_add4(change, row)?;
    }
    Ok(())
}

// An address put in its place and told, then the routes that it brings.
// That a row is fit is a clause, here and below: a struct around it would be made at each call for this one.
pub fn new_address(change: &mut Change<'_, '_>, new: &AddressRow, up: bool) -> Result<(), Refusal>
    requires value { fit_address new.now ≡ true }
    requires in_bounds { 34 * (change.old.told + 5) ≤ length change.old.events.now }
    ensures told { TellsAtMost 5 change.old change.new }
    ensures adds_from { AddsFrom (new_address new.now up) change.old change.new result }
{
    let addresses = change.state.stored().addresses();
    if ADDRESS_LIMIT <= addresses.rows.len() {
        return Err(Refusal::Full);
    }
    let place = rows_place::place4(addresses, new);
    change.state.insert_address(place, new);
    change.new_addr4(new);
    let block = row_candidates::candidates(change.state.stored().addresses(), new, up);
    install(
        change,
        Rows {
            rows: block.as_slice(),
        },
    )
}

// An address's prefix route with a request's priority put in, and then the one with its own taken out.
fn moved(change: &mut Change<'_, '_>, q: &AddV4, old: &AddressRow) -> Result<(), Refusal>
    requires value { fit_address old.now ≡ true }
    requires in_bounds { 34 * (change.old.told + 2) ≤ length change.old.events.now }
    ensures told { TellsAtMost 2 change.old change.new }
    ensures addresses { address_count change.new.state.words.now ≡ address_count change.old.state.words.now }
    ensures adds_from { AddsFrom (moved q.now old.now) change.old change.new result }
{
    if !rows_place::reroutes(q, old) {
        return Ok(());
    }
    let new = row_candidates::prefix_route4(old, q[address::PRIORITY], old[address::LOCAL]);
    step_kernel_add::kernel_add4(change, &new)?;
    let gone = row_candidates::prefix_route4(old, old[address::PRIORITY], old[address::LOCAL]);
    step_kernel_del::kernel_del4(change, &gone);
    Ok(())
}

// Address i, which is the requested one, with the request's priority, proto and lifetimes.
// The place is one in a list that the step changes, so that it is there is a clause.
pub fn change_v4(
    change: &mut Change<'_, '_>,
    i: usize,
    q: &AddV4,
    clock: Nanoseconds,
) -> Result<(), Refusal>
    requires i_bound { i < address_count change.old.state.words.now }
    requires q_value { fit_add_v4 q.now ≡ true }
    requires in_bounds { 34 * (change.old.told + 3) ≤ length change.old.events.now }
    ensures told { TellsAtMost 3 change.old change.new }
    ensures comes { (st : State) → Represents change.old.state.words.now st → fit_state st ≡ true → i ≡ place_of (same_address q.now) st.addresses → Comes (goes (change_v4 q.now (get_or st.addresses i []) clock.0 st)) change.old change.new result }
{
    let old = change.state.stored().addresses().rows[i];
    let row = row_update::changed_to(q, &old, clock);
    moved(change, q, &old)?;
    change.state.replace_address(i, &row);
    change.new_addr4(&row);
    Ok(())
}
