// A change to a state as it is made: the words that hold the state, and the event rows that tell of it. An event row has 34 words:
// what it is, the flags of a new route or 0, the row, zeros.
#![tactic(auto)]

ghost use Rattle.std.specs.Prelude.{◌≡◌, ◌∷◌, [], ◌++◌, ◌+◌, ◌-◌, ◌*◌, ◌≤◌, length};
ghost use Rattle.lists.specs.Lists.{zeros};
ghost use Rattle.layout.specs.Event.{new_addr4, del_addr4, new_route4, del_route4, link_down, ip_disabled};
ghost use Rattle.step_events.specs.Tells.{Tells};

mod change;

pub use change::Change;
use layout::{AddressRow, EVENT_WORDS, EventRow, RouteRow, event};

fn event_row<const N: usize>(kind: u32, flags: u32, r: &[u32; N]) -> EventRow
    requires { N ≤ 32 }
    ensures { result ≡ kind ∷ flags ∷ (r.now ++ zeros (32 - N)) }
{
    let mut row = [0u32; EVENT_WORDS];
    row[event::KIND] = kind;
    row[event::FLAGS] = flags;
    words::store(&mut row, event::ROW, r);
    row
}

impl Change<'_, '_> {
    // One row more.
    fn tell(&mut self, row: &EventRow)
        requires { 34 * (self.old.told + 1) ≤ length self.old.events.now }
        ensures tells { Tells (row.now ∷ []) self.old self.new }
        ensures state { self.new.state.words.now ≡ self.old.state.words.now }
    {
        words::store(self.events, EVENT_WORDS * self.told, row);
        self.told += 1;
    }

    // One for each event, and each asks for room: only a caller knows how many rows it still tells, so that is no fact of the struct. One
    // method for an enum of them would have the caller build what the method takes apart.
    pub fn new_addr4(&mut self, a: &AddressRow)
        requires { 34 * (self.old.told + 1) ≤ length self.old.events.now }
        ensures tells { Tells (new_addr4 a.now ∷ []) self.old self.new }
        ensures state { self.new.state.words.now ≡ self.old.state.words.now }
    {
        self.tell(&event_row(event::NEW_ADDR4, 0, a));
    }

    pub fn del_addr4(&mut self, a: &AddressRow)
        requires { 34 * (self.old.told + 1) ≤ length self.old.events.now }
        ensures tells { Tells (del_addr4 a.now ∷ []) self.old self.new }
        ensures state { self.new.state.words.now ≡ self.old.state.words.now }
    {
        self.tell(&event_row(event::DEL_ADDR4, 0, a));
    }

    pub fn new_route4(&mut self, r: &RouteRow, flags: u32)
        requires { 34 * (self.old.told + 1) ≤ length self.old.events.now }
        ensures tells { Tells (new_route4 r.now flags ∷ []) self.old self.new }
        ensures state { self.new.state.words.now ≡ self.old.state.words.now }
    {
        self.tell(&event_row(event::NEW_ROUTE4, flags, r));
    }

    pub fn del_route4(&mut self, r: &RouteRow)
        requires { 34 * (self.old.told + 1) ≤ length self.old.events.now }
        ensures tells { Tells (del_route4 r.now ∷ []) self.old self.new }
        ensures state { self.new.state.words.now ≡ self.old.state.words.now }
    {
        self.tell(&event_row(event::DEL_ROUTE4, 0, r));
    }

    // The device's rows go but for those of host scope; and with the last address all of them. One event for all, without a row.
    #[tactic(auto, using(crate::specs::Row::bare_row))]
    pub fn link_down(&mut self)
        requires { 34 * (self.old.told + 1) ≤ length self.old.events.now }
        ensures tells { Tells (link_down ∷ []) self.old self.new }
        ensures state { self.new.state.words.now ≡ self.old.state.words.now }
    {
        self.tell(&event_row(event::LINK_DOWN, 0, &[]));
    }

    #[tactic(auto, using(crate::specs::Row::bare_row))]
    pub fn ip_disabled(&mut self)
        requires { 34 * (self.old.told + 1) ≤ length self.old.events.now }
        ensures tells { Tells (ip_disabled ∷ []) self.old self.new }
        ensures state { self.new.state.words.now ≡ self.old.state.words.now }
    {
        self.tell(&event_row(event::IP_DISABLED, 0, &[]));
    }
}
