// The calls of the host that change a state, on lent words. Each refuses unfit input, and a list that would pass its limit, and then
// changes nothing.
// Their arguments are those that C hands over.
#![tactic(auto)]

ghost use Rattle.std.specs.Prelude.{◌≡◌, ◌≤◌, true, length};
ghost use Rattle.layout.specs.Event as Event;
ghost use Rattle.definition.specs.Step.{event_room, up_call, down_call, add_v4_call, del_v4_call, expire_call, add_route4_call, del_route4_call};
ghost use Rattle.definition.specs.State.{State};
ghost use Rattle.definition.specs.Words.{state_size, base};
ghost use Rattle.lists.specs.Lists.{any, first};
ghost use Rattle.definition.specs.Reference.Addresses.{same_address};
ghost use Rattle.definition_parts.specs.Rule.{row_changes};
ghost use Rattle.state.specs.Represents.{Represents, represents};
ghost use Rattle.call_change.specs.Answer.{Answers};
ghost use Rattle.call_change.specs.Ran.{Takes, Went, Ran, Counts, told_some, told_rows};
ghost use Rattle.definition_recording.specs.Recording.{of_routes};

use layout::{
    AddRoute4, AddV4, BASE_WORDS, DelRoute4, DelV4, EVENT_BUFFER, EVENT_WORDS, ROUTE_COUNT,
    TABLE_COUNT, event,
};
use life::Nanoseconds;
use refusal::Refusal;
use state::{Stored, StoredMut};
use step_events::Change;

// What a step left in the words that it was lent, and how many rows it told.
#[derive(Drop)]
struct Ended<'a, 'b> {
    words: &'a mut [u32],
    events: &'b mut [u32],
    told: Result<usize, Refusal>,
}

// A step on a change of which nothing is told. The words are handed back, since behind a struct that stands in a struct nothing is
// known of what was lent to it.
fn on_change<'a, 'b, F: FnOnce(&mut Change<'_, '_>) -> Result<(), Refusal>>(
    words: &'a mut [u32],
    events: &'b mut [u32],
    step: F,
) -> Ended<'a, 'b>
    requires takes { Takes F.FnOnce step words.old events.old }
    requires holds { represents words.old ≡ true }
    ensures { Went F.FnOnce step words.entry events.entry result }
{
    let state = StoredMut { words };
    let mut change = Change {
        state,
        events,
        told: 0,
    };
    let came = step(&mut change);
    let Change {
        state,
        events,
        told,
    } = change;
    let StoredMut { words } = state;
    let told = came.map(|()| told);
    Ended {
        words,
        events,
        told,
    }
}

// A step on the words that hold the state and the event buffer, and how many rows it told.
// On words and no `StoredMut`, for the reason that `on_change` gives.
fn stepped<F: FnOnce(&mut Change<'_, '_>) -> Result<(), Refusal>>(
    words: &mut [u32],
    events: &mut [u32],
    step: F,
) -> Result<usize, Refusal>
    requires takes { Takes F.FnOnce step words.old events.old }
    requires holds { represents words.old ≡ true }
    ensures { Ran F.FnOnce step words.old words.new events.old events.new result }
{
    let ended = on_change(words, events, step);
    ended.told
}

fn told_some(told: Result<usize, Refusal>) -> bool
    ensures { result ≡ told_some told }
{
    told.is_ok_and(|n| 0 < n)
}

// Whether a row told is of a route, or of all that the device has: then the rows of a table may be more or fewer.
fn told_routes(events: &[u32], told: Result<usize, Refusal>) -> bool
    ensures { result ≡ any of_routes (told_rows told events.now) }
{
    let (rows, _) = events.as_chunks::<EVENT_WORDS>();
    rows.iter()
        .take(told.unwrap_or(0))
        .any(|row| event::NEW_ROUTE4 <= row[event::KIND])
}

// The same on the words of a state, and what is behind the lists settled where they changed: a step tells a row of whatever it changes
// but tables. `other` says that the row told isn't the one that was there. The row counts are made anew only where they may be others: a
// replaced address leaves them, and need not wait for that.
fn changed<F: FnOnce(&mut Change<'_, '_>) -> Result<(), Refusal>>(
    state: &mut [u32],
    events: &mut [u32],
    other: bool,
    step: F,
) -> Result<usize, Refusal>
    requires takes { Takes F.FnOnce step (base state.old) events.old }
    requires holds { (length state.old ≡ state_size) × (represents (base state.old) ≡ true) }
    ensures { Counts F.FnOnce step other state.old state.new events.old events.new result }
{
    let tables = state[TABLE_COUNT];
    let told = stepped(&mut state[..BASE_WORDS], events, step);
    if (told_some(told) & other) | (tables < state[TABLE_COUNT]) {
        if told_routes(events, told) | (tables < state[TABLE_COUNT]) {
            state_count::settle(state);
        } else {
            state_count::count(state);
        }
    }
    told
}

// The device goes up: 127.0.0.1 if it isn't there, then the routes of every address.
pub fn up(state: &mut [u32], events: &mut [u32], clock: u64) -> Result<usize, Refusal>
    ensures { Answers (up_call (length events.old) clock state.old) state.new events.old events.new result }
{
    call_read::checked(state, EVENT_BUFFER <= events.len(), Ok(()))?;
    changed(
        state,
        events,
        true,
        |change| step_add_v4_atomic::up(change, Nanoseconds(clock)),
    )
}

// The device goes down.
pub fn down(state: &mut [u32], events: &mut [u32]) -> Result<usize, Refusal>
    ensures { Answers (down_call (length events.old) state.old) state.new events.old events.new result }
{
    down_lent(state, events.len(), events)
}

// The same for a caller that was lent room for so many words of events, and lends on that of a row. Its row tells nothing of what changed:
// that is told by fewer routes.
pub fn down_lent(state: &mut [u32], room: usize, events: &mut [u32]) -> Result<usize, Refusal>
    requires { event_room ≤ room → Event.size ≤ length events.old }
    ensures { Answers (down_call room state.old) state.new events.old events.new result }
{
    call_read::checked(state, EVENT_BUFFER <= room, Ok(()))?;
    let routes = state[ROUTE_COUNT];
    let told = stepped(&mut state[..BASE_WORDS], events, |change| {
        step_drop_routes::down(change);
        Ok(())
    });
    if state[ROUTE_COUNT] < routes {
        state_count::settle(state);
    }
    told
}

// Addresses whose time is up go, and those past their preferred time are marked. Both numbers are nanoseconds; the allowance is by how
// much too soon a lifetime may be taken to have run out.
pub fn expire(
    state: &mut [u32],
    events: &mut [u32],
    clock: u64,
    allowance: u64,
) -> Result<usize, Refusal>
    ensures { Answers (expire_call (length events.old) clock allowance state.old) state.new events.old events.new result }
{
    let clock = Nanoseconds(clock);
    let allowance = Nanoseconds(allowance);
    call_read::checked(
        state,
        EVENT_BUFFER <= events.len(),
        request_fit::fit_expire(clock, allowance),
    )?;
    changed(state, events, true, |change| {
        step_expire::expire(change, allowance, clock);
        Ok(())
    })
}

fn row_changes(words: &[u32], q: &AddV4, clock: Nanoseconds) -> bool
    requires { represents words.now ≡ true }
    ensures { (st : State) → Represents words.now st → result ≡ row_changes q.now clock.0 (first (same_address q.now) st.addresses) }
{
    rows_change::row_changes(Stored { words }.addresses(), q, clock)
}

// An address is put in, or the one that is there changed where the request says so.
// The four calls with a request share `sized`, `checked` and `changed`; what is left of each is its own fitness and step.
pub fn add_v4(
    state: &mut [u32],
    q: &[u32],
    events: &mut [u32],
    clock: u64,
) -> Result<usize, Refusal>
    ensures { Answers (add_v4_call q.now (length events.old) clock state.old) state.new events.old events.new result }
{
    let q: &AddV4 = call_read::sized(q)?;
    let fit = request_fit::fit_add_v4(q);
    call_read::checked(state, EVENT_BUFFER <= events.len(), fit)?;
    let other = row_changes(&state[..BASE_WORDS], q, Nanoseconds(clock));
    changed(
        state,
        events,
        other,
        |change| step_add_v4_atomic::add_v4(change, q, Nanoseconds(clock)),
    )
}

// The first address that meets the conditions goes, with what goes with it.
pub fn del_v4(state: &mut [u32], q: &[u32], events: &mut [u32]) -> Result<usize, Refusal>
    ensures { Answers (del_v4_call q.now (length events.old) state.old) state.new events.old events.new result }
{
    let q: &DelV4 = call_read::sized(q)?;
    let fit = request_fit::fit_del_v4(q);
    call_read::checked(state, EVENT_BUFFER <= events.len(), fit)?;
    changed(state, events, true, |change| step_del_v4::del_v4(change, q))
}

// A route is put in, or replaces one. A refusal by the reference may leave its table listed.
pub fn add_route4(state: &mut [u32], q: &[u32], events: &mut [u32]) -> Result<usize, Refusal>
    ensures { Answers (add_route4_call q.now (length events.old) state.old) state.new events.old events.new result }
{
    add_route4_lent(state, q, events.len(), events)
}

// The same for a caller that was lent room for so many words of events, and lends on that of a row.
// Both numbers are asked for, here and in `del_route4_lent`: they differ, and interface4 hands both over.
pub fn add_route4_lent(
    state: &mut [u32],
    q: &[u32],
    room: usize,
    events: &mut [u32],
) -> Result<usize, Refusal>
    requires { event_room ≤ room → Event.size ≤ length events.old }
    ensures { Answers (add_route4_call q.now room state.old) state.new events.old events.new result }
{
    let q: &AddRoute4 = call_read::sized(q)?;
    let fit = request_fit::fit_add_route4(q);
    call_read::checked(state, EVENT_BUFFER <= room, fit)?;
    changed(
        state,
        events,
        true,
        |change| step_route_request::add_route4(change, q),
    )
}

// The first route that matches goes.
pub fn del_route4(state: &mut [u32], q: &[u32], events: &mut [u32]) -> Result<usize, Refusal>
    ensures { Answers (del_route4_call q.now (length events.old) state.old) state.new events.old events.new result }
{
    del_route4_lent(state, q, events.len(), events)
}

// The same for a caller that was lent room for so many words of events, and lends on that of a row.
pub fn del_route4_lent(
    state: &mut [u32],
    q: &[u32],
    room: usize,
    events: &mut [u32],
) -> Result<usize, Refusal>
    requires { event_room ≤ room → Event.size ≤ length events.old }
    ensures { Answers (del_route4_call q.now room state.old) state.new events.old events.new result }
{
    let q: &DelRoute4 = call_read::sized(q)?;
    let fit = request_fit::fit_del_route4(q);
    call_read::checked(state, EVENT_BUFFER <= room, fit)?;
    changed(
        state,
        events,
        true,
        |change| step_route_request::del_route4(change, q),
    )
}
