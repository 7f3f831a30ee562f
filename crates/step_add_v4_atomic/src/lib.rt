// add_v4 and up whole: where a list lacks room, the state and the event rows are left as they were.
// A step is no method of `Change`, and asks for its room, for the reasons that step_events gives.
#![tactic(auto)]

ghost use Rattle.std.specs.Prelude.{◌≡◌, true, ◌+◌, ◌*◌, ◌≤◌, length, OnOk};
ghost use Rattle.layout.specs.Request.{fit_add_v4};
ghost use Rattle.definition.specs.State.{State};
ghost use Rattle.definition.specs.Step.{event_limit};
ghost use Rattle.definition.specs.Words.{fit_state};
ghost use Rattle.definition.specs.Reference.Addresses.{goes, add_v4, up};
ghost use Rattle.state.specs.Represents.{Represents};
ghost use Rattle.step_events.specs.Comes.{ComesWhole};
ghost use Rattle.step_events.specs.Tells.{TellsAtMost};
ghost use Rattle.step_add_v4_atomic.specs.Copy.{CopiedBack, Takes, Keeps, Tried};
ghost use Rattle.step_add_v4_atomic.specs.Room.{has_room};

use layout::{
    ADDRESS_LIMIT, AddV4, BASE_WORDS, EVENT_BUFFER, EVENT_WORDS, ROUTE_LIMIT, TABLE_COUNT,
    TABLE_LIMIT,
};
use life::Nanoseconds;
use refusal::Refusal;
use state::{Stored, StoredMut};
use step_events::Change;

// A call lists two tables at most, 254 and 255.
const TABLES_BEFORE: usize = TABLE_LIMIT - 2;

// The event rows that add_v4 tells at most.
const ADDED_BUFFER: usize = 5 * EVENT_WORDS;

// Whether every list has room: for an address, as many routes, and the two tables.
fn has_room(s: Stored<'_>, rows: usize) -> bool
    ensures { result ≡ has_room s.entry.words.now rows }
{
    s.addresses().rows.len() < ADDRESS_LIMIT
        && rows <= ROUTE_LIMIT
        && s.routes().rows.len() <= ROUTE_LIMIT - rows
        && s.words[TABLE_COUNT] as usize <= TABLES_BEFORE
}

// The words of another state. By itself: in `copy_back` they lie in a struct within a struct, whose words can't be lent on there.
fn copy_state(to: &mut StoredMut<'_>, from: Stored<'_>)
    ensures words { to.new.words.now ≡ from.entry.words.now }
    ensures place { to.new.words.ghost_name ≡ to.old.words.ghost_name }
{
    to.words.copy_from_slice(from.words);
}

// What was tried on a copy: its words are taken over, and what it told is told behind what was told before.
fn copy_back(change: &mut Change<'_, '_>, tried: &Change<'_, '_>)
    requires { 34 * (change.old.told + tried.now.told) ≤ length change.old.events.now }
    ensures { CopiedBack tried.now change.old change.new }
{
    copy_state(&mut change.state, tried.state.stored());
    let end = EVENT_WORDS * tried.told;
    words::store(
        change.events,
        EVENT_WORDS * change.told,
        &tried.events[..end],
    );
    change.told += tried.told;
}

// A step on a copy of the state, and on N words of its own for what it tells: unless it is refused, what it leaves is taken over.
fn tried<const N: usize, F: FnOnce(&mut Change<'_, '_>) -> Result<(), Refusal>>(
    change: &mut Change<'_, '_>,
    step: F,
) -> Result<(), Refusal>
    requires takes { Takes F.FnOnce step change.old.state.words.now N }
    requires keeps { Keeps F.FnOnce step change.old.state.words.now N }
    requires room { 34 * change.old.told + N ≤ length change.old.events.now }
    ensures { Tried F.FnOnce step N change.old change.new result }
{
    let mut copy = [0; BASE_WORDS];
    copy.copy_from_slice(change.state.stored().words);
    let mut rows = [0; N];
    let mut aside = Change {
        state: StoredMut { words: &mut copy },
        events: &mut rows,
        told: 0,
    };
    step(&mut aside)?;
    copy_back(change, &aside);
    Ok(())
}

// A requested address put in, or the one that is there changed, where the request says so.
// That the request is fit is a clause, as in step_add_v4.
pub fn add_v4(change: &mut Change<'_, '_>, q: &AddV4, clock: Nanoseconds) -> Result<(), Refusal>
    requires q_fit { fit_add_v4 q.now ≡ true }
    requires in_bounds { 34 * (change.old.told + 5) ≤ length change.old.events.now }
    ensures told { TellsAtMost 5 change.old change.new }
    ensures comes_whole { (st : State) → Represents change.old.state.words.now st → fit_state st ≡ true → ComesWhole st (add_v4 q.now clock.0 st) change.old change.new result }
{
    if has_room(change.state.stored(), 4) {
        return step_add_v4::add_v4(change, q, clock);
    }
    tried::<ADDED_BUFFER, _>(change, |change| step_add_v4::add_v4(change, q, clock))
}

// 127.0.0.1 if it isn't there, with its routes; then the routes that every address has.
pub fn up(change: &mut Change<'_, '_>, clock: Nanoseconds) -> Result<(), Refusal>
    requires in_bounds { 34 * (change.old.told + event_limit) ≤ length change.old.events.now }
    ensures told { OnOk result (TellsAtMost 325 change.old change.new) }
    ensures comes_whole { (st : State) → Represents change.old.state.words.now st → fit_state st ≡ true → ComesWhole st (goes (up clock.0 st)) change.old change.new result }
{
    let most = 4 * (change.state.stored().addresses().rows.len() + 2);
    if has_room(change.state.stored(), most) {
        return step_add_v4::up(change, clock);
    }
    tried::<EVENT_BUFFER, _>(change, |change| step_add_v4::up(change, clock))
}
