// Addresses at the end of their lives: one that is due goes, and all begins again; one that fades is marked and told.
// A step is no method of `Change`, and asks for its room, for the reasons that step_events gives.
#![tactic(auto)]

ghost use Rattle.std.specs.Prelude.{◌≡◌, true, [], ◌∷◌, ◌+◌, ◌*◌, ◌≤◌, ◌<◌, length, set};
ghost use Rattle.layout.specs.Address.{fit_address, permanent, deprecated};
ghost use Rattle.layout.specs.Event.{new_addr4};
ghost use Rattle.definition.specs.State.{State, with_addresses};
ghost use Rattle.definition.specs.Words.{address_count};
ghost use Rattle.definition.specs.Reference.Removal.{due, deprecates, deprecate, expire};
ghost use Rattle.definition.specs.Preservation.Shrinking.{potential};
ghost use Rattle.state.specs.Represents.{Represents};
ghost use Rattle.step_events.specs.Tells.{Tells};
ghost use Rattle.step_events.specs.EmitsWithin.{RoomFor, SomeRoom, EmitsWithin};
ghost use Rattle.step_expire.specs.Iteration.{expire_turn, next_place};

use layout::{AddressRow, address};
use life::Nanoseconds;
use step_events::Change;

// When it is, and how much sooner a lifetime counts as reached.
#[derive(Clone, Copy)]
struct Clock {
    time: Nanoseconds,
    allowance: Nanoseconds,
}

fn permanent(a: &AddressRow) -> bool
    ensures { result ≡ permanent a.now }
{
    row_address::has(a[address::FLAGS], row_address::PERMANENT)
}

fn deprecated(a: &AddressRow) -> bool
    ensures { result ≡ deprecated a.now }
{
    row_address::has(a[address::FLAGS], row_address::DEPRECATED)
}

impl Clock {
    // Its valid lifetime is reached; a permanent address never runs out.
    #[tactic(auto, unfolding(definition::specs::Reference::Removal::due))]
    fn due(self, a: &AddressRow) -> bool
        ensures { result ≡ due self.allowance.0 self.time.0 a.now }
    {
        let life = row_address::life_of(a);
        !permanent(a) && life.reached(life.valid, self.time, self.allowance)
    }

    // Its preferred lifetime is reached, and that isn't marked yet.
    #[tactic(auto, unfolding(definition::specs::Reference::Removal::deprecates))]
    fn deprecates(self, a: &AddressRow) -> bool
        ensures { result ≡ deprecates self.allowance.0 self.time.0 a.now }
    {
        let life = row_address::life_of(a);
        let over = life.reached(life.preferred, self.time, self.allowance);
        !permanent(a) && !deprecated(a) && over
    }
}

// The address at i becomes the row a, marked, and is told.
// The place is one in a list that the step changes, so that it is there is a clause, here and below.
fn mark(change: &mut Change<'_, '_>, i: usize, a: &AddressRow)
    requires i_bound { (i < address_count change.old.state.words.now) × (34 * (change.old.told + 1) ≤ length change.old.events.now) × (fit_address a.now ≡ true) }
    ensures tells { Tells (new_addr4 (deprecate a.now) ∷ []) change.old change.new }
    ensures represents { (st : State) → Represents change.old.state.words.now st → Represents change.new.state.words.now (with_addresses (set st.addresses i (deprecate a.now)) st) }
{
    let row = row_update::deprecate(a);
    change.new_addr4(&row);
    change.state.replace_address(i, &row);
}

// What comes of the address at i, and the place that is next: the first one again where addresses went.
fn iteration(change: &mut Change<'_, '_>, clock: Clock, i: usize) -> usize
    requires some_room { SomeRoom potential change.old }
    requires i_bound { i < address_count change.old.state.words.now }
    ensures next { result ≡ next_place i (address_count change.old.state.words.now) (address_count change.new.state.words.now) }
    ensures emits { (st : State) → RoomFor potential st change.old → EmitsWithin potential st (expire_turn clock.allowance.0 clock.time.0 i st) change.old change.new }
{
    let row = change.state.stored().addresses().rows[i];
    if clock.due(&row) {
        step_remove_v4::remove_v4(change, &row);
        return 0;
    }
    if clock.deprecates(&row) {
        mark(change, i, &row);
    }
    i + 1
}

// Every address that is due goes, each that fades is marked. The list changes under the loop, and the place goes back to the first,
// so it is a `while` over a place: no `for` and no iterator could begin again.
pub fn expire(change: &mut Change<'_, '_>, allowance: Nanoseconds, clock: Nanoseconds)
    requires { SomeRoom potential change.old }
    ensures { (st : State) → RoomFor potential st change.old → EmitsWithin potential st (expire allowance.0 clock.0 st) change.old change.new }
{
    let clock = Clock {
        time: clock,
        allowance,
    };
    let mut i = 0usize;
    while i < change.state.stored().address_count() {
        i = iteration(change, clock, i);
    }
}
