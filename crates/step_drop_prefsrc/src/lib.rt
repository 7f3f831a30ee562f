// Main routes that fall with their preferred source, and are told.
// A step is no method of `Change`, and asks for its room, for the reasons that step_events gives.
#![tactic(auto)]

ghost use Rattle.definition.specs.State.{State};
ghost use Rattle.definition.specs.Preservation.Shrinking.{potential};
ghost use Rattle.step_events.specs.EmitsWithin.{RoomFor, SomeRoom, EmitsWithin};
ghost use Rattle.step_drop_prefsrc.specs.Dependents.{dependents_go};

use step_events::Change;

// The main rows with the preferred source ip go, in their order: they are told, and then taken out together.
pub fn drop_dependents(change: &mut Change<'_, '_>, ip: u32)
    requires { SomeRoom potential change.old }
    ensures { (st : State) → RoomFor potential st change.old → EmitsWithin potential st (dependents_go ip st) change.old change.new }
{
    let n = change.state.stored().route_count();
    // By place: telling a row changes what lends the rows.
    for i in 0..n {
        let row = change.state.stored().routes().rows[i];
        if rows_wanted::dependents_from(&row, ip) {
            change.del_route4(&row);
        }
    }
    state_retain::retain(&mut change.state, |r| !rows_wanted::dependents_from(r, ip));
}
