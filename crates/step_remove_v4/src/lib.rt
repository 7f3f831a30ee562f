// Addresses taken out, with the routes that go with them.
// A step is no method of `Change`, and asks for its room, for the reasons that step_events gives.
#![tactic(auto)]

ghost use Rattle.std.specs.Prelude.{◌≡◌, true, ◌<◌, position};
ghost use Rattle.lists.specs.Lists.{any, eq_row};
ghost use Rattle.definition.specs.State.{State};
ghost use Rattle.definition.specs.Words.{address_count};
ghost use Rattle.definition.specs.Reference.Removal.{remove_one, remove_v4};
ghost use Rattle.definition.specs.Preservation.Shrinking.{potential};
ghost use Rattle.step_events.specs.EmitsWithin.{RoomFor, SomeRoom, EmitsWithin};
ghost use Rattle.step_remove_v4.specs.Gone.{goes_with, gone_turn, secondaries};
ghost use Rattle.step_remove_v4.specs.One.{Present, gone_from};

use layout::{AddressRow, address};
use rows::Addresses;
use step_events::Change;

// The place of the first row equal to a.
fn place_of(addresses: Addresses<'_>, a: &AddressRow) -> Option<usize>
    ensures { result ≡ position (eq_row a.now) addresses.entry.rows.now }
{
    addresses.rows.iter().position(|r| a == r)
}

// The first row equal to a goes, and is told.
fn take_out(change: &mut Change<'_, '_>, a: &AddressRow)
    requires { Present a.now change.old }
    ensures { (st : State) → RoomFor potential st change.old → any (eq_row a.now) st.addresses ≡ true → EmitsWithin potential st (gone_from a.now st) change.old change.new }
{
    if let Some(i) = place_of(change.state.stored().addresses(), a) {
        change.del_addr4(a);
        change.state.remove_address(i);
    }
}

// The address a goes, its routes that none wants, and what falls with it.
pub fn remove_one(change: &mut Change<'_, '_>, a: &AddressRow)
    requires { Present a.now change.old }
    ensures { (st : State) → RoomFor potential st change.old → any (eq_row a.now) st.addresses ≡ true → EmitsWithin potential st (remove_one a.now st) change.old change.new }
{
    let routes = row_candidates::leaving(change.state.stored().addresses(), a);
    take_out(change, a);
    step_drop_routes::take_routes(change, routes.as_slice(), a[address::LOCAL]);
}

// Whether b goes with the primary a.
fn goes_with(a: &AddressRow, b: &AddressRow) -> bool
    ensures { result ≡ goes_with a.now b.now }
{
    !row_subnet::secondary(a) && row_subnet::secondary(b) && row_subnet::same_subnet(a, b)
}

// The address at i goes if it goes with the primary a.
// The place is one in a list that the step changes, so that it is there is a clause.
fn gone_iteration(change: &mut Change<'_, '_>, a: &AddressRow, i: usize)
    requires some_room { SomeRoom potential change.old }
    requires i_bound { i < address_count change.old.state.words.now }
    ensures { (st : State) → RoomFor potential st change.old → EmitsWithin potential st (gone_turn a.now i st) change.old change.new }
{
    let row = change.state.stored().addresses().rows[i];
    if goes_with(a, &row) {
        remove_one(change, &row);
    }
}

// The secondaries that go with the primary a, in their order: a pass over the n that are there when it begins. Each that
// goes brings those behind it a place forward.
fn remove_secondaries(change: &mut Change<'_, '_>, a: &AddressRow)
    requires { SomeRoom potential change.old }
    ensures { (st : State) → RoomFor potential st change.old → EmitsWithin potential st (secondaries a.now st) change.old change.new }
{
    let n = change.state.stored().address_count();
    // By place: each turn changes the words that lend the addresses.
    for j in 0..n {
        let i = j + change.state.stored().address_count() - n;
        gone_iteration(change, a, i);
    }
}

// The address a goes; a primary takes its secondaries with it, which go first.
pub fn remove_v4(change: &mut Change<'_, '_>, a: &AddressRow)
    requires { Present a.now change.old }
    ensures { (st : State) → RoomFor potential st change.old → any (eq_row a.now) st.addresses ≡ true → EmitsWithin potential st (remove_v4 a.now st) change.old change.new }
{
    remove_secondaries(change, a);
    remove_one(change, a);
}
