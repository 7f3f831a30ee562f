// The kernel's own routes: added with their table listed, and told.
// A step is no method of `Change`, and asks for its room, for the reasons that step_events gives.
#![tactic(auto)]

ghost use Rattle.std.specs.Prelude.{◌≡◌, true, ◌+◌, ◌*◌, ◌≤◌, length};
ghost use Rattle.layout.specs.Route.{fit_route};
ghost use Rattle.definition.specs.State.{State};
ghost use Rattle.definition.specs.Words.{fit_state, address_count};
ghost use Rattle.definition.specs.Reference.Insert.{kernel_add4};
ghost use Rattle.definition.specs.Reference.Addresses.{goes};
ghost use Rattle.state.specs.Represents.{Represents};
ghost use Rattle.step_events.specs.Comes.{Comes};
ghost use Rattle.step_events.specs.Tells.{TellsAtMost};

use layout::{RouteRow, TABLE_LIMIT, route};
use refusal::Refusal;
use step_events::Change;

const CREATE_APPEND: u32 = 0xc00;

// Its table is listed, and it is put behind the rows alike it and told, unless it is there.
// That the row is fit is a clause: a struct around it would be made at each call for this one.
pub fn kernel_add4(change: &mut Change<'_, '_>, new: &RouteRow) -> Result<(), Refusal>
    requires value { fit_route new.now ≡ true }
    requires in_bounds { 34 * (change.old.told + 1) ≤ length change.old.events.now }
    ensures told { TellsAtMost 1 change.old change.new }
    ensures addresses { address_count change.new.state.words.now ≡ address_count change.old.state.words.now }
    ensures comes { (st : State) → Represents change.old.state.words.now st → fit_state st ≡ true → Comes (goes (kernel_add4 new.now st)) change.old change.new result }
{
    let table = new[route::TABLE];
    if TABLE_LIMIT < state_tables::tables_after(change.state.stored(), table) {
        return Err(Refusal::Full);
    }
    state_tables::list_table(&mut change.state, table);
    match step_insert::insert4(&mut change.state, new, CREATE_APPEND) {
        Ok(Some(flags)) => change.new_route4(new, flags),
        Ok(None) => {}
        Err(refusal) => match refusal {
            Refusal::Full => return Err(Refusal::Full),
            _ => {}
        },
    }
    Ok(())
}
