// What goes with an address: those of its routes that none wants, the main rows that fall with it, the device's routes. And what goes
// with the device.
// A step is no method of `Change`, and asks for its room, for the reasons that step_events gives.
#![tactic(auto)]

ghost use Rattle.std.specs.Prelude.{◌≡◌, ◌+◌, ◌*◌, ◌≤◌, length};
ghost use Rattle.lists.specs.Lists.{any};
ghost use Rattle.definition.specs.State.{State, through};
ghost use Rattle.definition.specs.Reference.Addresses.{down};
ghost use Rattle.definition.specs.Reference.Removal.{disable};
ghost use Rattle.definition.specs.Preservation.Shrinking.{potential};
ghost use Rattle.state.specs.Represents.{Represents};
ghost use Rattle.step_events.specs.Emits.{Emits};
ghost use Rattle.step_events.specs.EmitsWithin.{RoomFor, SomeRoom, EmitsWithin};
ghost use Rattle.step_drop_routes.specs.One.{closing, unless_wanted, loses, fall_from};
ghost use Rattle.step_drop_routes.specs.Iterations.{falls, routes_go};

use layout::{RouteRow, route};
use rows::Addresses;
use state::Stored;
use step_events::Change;

// A route goes unless an address wants it.
fn unless_wanted(change: &mut Change<'_, '_>, r: &RouteRow)
    requires { SomeRoom potential change.old }
    ensures { (st : State) → RoomFor potential st change.old → EmitsWithin potential st (unless_wanted r.now st) change.old change.new }
{
    let stays = rows_wanted::wanted(change.state.stored().addresses(), r);
    if stays {
        return;
    }
    step_kernel_del::kernel_del4(change, r);
}

fn delete_unwanted(change: &mut Change<'_, '_>, rows: &[RouteRow])
    requires { SomeRoom potential change.old }
    ensures { (st : State) → RoomFor potential st change.old → EmitsWithin potential st (through unless_wanted rows.now st) change.old change.new }
{
    for r in rows {
        unless_wanted(change, r);
    }
}

// Whether r is a /32 of a local route that no address wants.
fn lost(addresses: Addresses<'_>, r: &RouteRow) -> bool
    ensures { result ≡ loses addresses.entry.rows.now r.now }
{
    r[route::KIND] == layout::KIND_LOCAL
        && r[route::LEN] == 32
        && !rows_wanted::wanted(addresses, r)
}

fn loses(addresses: Addresses<'_>, rows: &[RouteRow]) -> bool
    ensures { result ≡ any (loses addresses.entry.rows.now) rows.now }
{
    rows.iter().any(|r| lost(addresses, r))
}

// Whether the main rows with the preferred source ip fall: a local route of it is lost and it is local no more. Most
// sources have no such row, so that is asked before all else.
fn falls(s: Stored<'_>, ip: u32, lost: bool) -> bool
    ensures { (st : State) → Represents s.entry.words.now st → result ≡ falls ip lost st }
{
    lost && rows_wanted::dependents(s.routes(), ip)
        && !state_read::local4(s, ip)
        && state_tables::listed(s, layout::TABLE_MAIN)
}

fn fall(change: &mut Change<'_, '_>, ip: u32, lost: bool)
    requires { SomeRoom potential change.old }
    ensures { (st : State) → RoomFor potential st change.old → EmitsWithin potential st (fall_from ip lost st) change.old change.new }
{
    if falls(change.state.stored(), ip, lost) {
        step_drop_prefsrc::drop_dependents(change, ip);
    }
}

// With the last address the device's routes go, and one event tells of all.
fn disable(change: &mut Change<'_, '_>)
    requires { SomeRoom closing change.old }
    ensures { (st : State) → RoomFor closing st change.old → Emits (disable st) change.old change.new }
{
    if change.state.stored().address_count() == 0 {
        state_retain::deviceless(&mut change.state);
        change.ip_disabled();
    }
}

// The device goes down: its routes go but for those of host scope, and one event tells of all.
pub fn down(change: &mut Change<'_, '_>)
    requires { 34 * (change.old.told + 1) ≤ length change.old.events.now }
    ensures { (st : State) → Represents change.old.state.words.now st → Emits (down st) change.old change.new }
{
    state_retain::down(&mut change.state);
    change.link_down();
}

// The routes of an address ip that is gone, and what goes with them. What is told where no address is left may take no route with it, so
// the room is for one row more than go.
pub fn take_routes(change: &mut Change<'_, '_>, rows: &[RouteRow], ip: u32)
    requires { SomeRoom closing change.old }
    ensures { (st : State) → RoomFor closing st change.old → Emits (routes_go ip rows.now st) change.old change.new }
{
    delete_unwanted(change, rows);
    let lost = loses(change.state.stored().addresses(), rows);
    fall(change, ip, lost);
    disable(change);
}
