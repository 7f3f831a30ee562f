// add_v4 and up on a change, told. Where a list lacks room the words are left anyhow.
// A step is no method of `Change`, and asks for its room, for the reasons that step_events gives.
#![tactic(auto)]

ghost use Rattle.std.specs.Prelude.{◌≡◌, true, ◌+◌, ◌*◌, ◌≤◌, ◌<◌, length, OnOk};
ghost use Rattle.layout.specs.Request.{fit_add_v4};
ghost use Rattle.definition.specs.State.{State};
ghost use Rattle.definition.specs.Step.{event_limit};
ghost use Rattle.definition.specs.Words.{fit_state, address_count};
ghost use Rattle.definition.specs.Reference.Addresses.{add_v4, up};
ghost use Rattle.state.specs.Represents.{Represents};
ghost use Rattle.step_events.specs.Comes.{Comes};
ghost use Rattle.step_events.specs.Tells.{TellsAtMost};
ghost use Rattle.step_new_address.specs.Adding.{AddsFrom};
ghost use Rattle.step_add_v4.specs.Added.{step_of};
ghost use Rattle.step_add_v4.specs.Every.{every, turn_at};

use layout::{AddV4, add_v4};
use life::{Lifetimes, Nanoseconds};
use refusal::Refusal;
use rows::Rows;
use step_events::Change;

// A refusal of the reference's is a step that does nothing.
fn step_of(came: Result<(), Refusal>) -> Result<(), Refusal>
    ensures { result ≡ step_of came }
{
    match came {
        Err(Refusal::Errno(_)) => Ok(()),
        came => came,
    }
}

// A requested address put in, or the one that is there changed, where the request says so.
// That the request is fit is a clause: it is read by place and handed on as its array, so a struct would be taken apart in each.
pub fn add_v4(change: &mut Change<'_, '_>, q: &AddV4, clock: Nanoseconds) -> Result<(), Refusal>
    requires q_fit { fit_add_v4 q.now ≡ true }
    requires in_bounds { 34 * (change.old.told + 5) ≤ length change.old.events.now }
    ensures told { TellsAtMost 5 change.old change.new }
    ensures comes { (st : State) → Represents change.old.state.words.now st → fit_state st ≡ true → Comes (add_v4 q.now clock.0 st) change.old change.new result }
{
    let there = change.state.stored().addresses();
    if let Some(i) = rows_place::same_at(there, q) {
        if q[add_v4::REPLACE] != 1 {
            return Err(Refusal::Errno(layout::EXISTS));
        }
        return step_new_address::change_v4(change, i, q, clock);
    }
    let new = rows_place::fresh(there, q, clock);
    step_new_address::new_address(change, &new, q[add_v4::UP] == 1)
}

// The routes of address i.
// The place is one in a list that the step changes, so that it is there is a clause.
fn install_at(change: &mut Change<'_, '_>, i: usize) -> Result<(), Refusal>
    requires i_bound { i < address_count change.old.state.words.now }
    requires in_bounds { 34 * (change.old.told + 4) ≤ length change.old.events.now }
    ensures told { TellsAtMost 4 change.old change.new }
    ensures addresses { address_count change.new.state.words.now ≡ address_count change.old.state.words.now }
    ensures adds_from { AddsFrom (turn_at i) change.old change.new result }
{
    let addresses = change.state.stored().addresses();
    let block = row_candidates::candidates(addresses, &addresses.rows[i], true);
    step_new_address::install(
        change,
        Rows {
            rows: block.as_slice(),
        },
    )
}

// The routes of every address, in order. Out of line, so that its routes don't stand on the stack of `up` while an address is added.
#[inline(never)]
fn install_all(change: &mut Change<'_, '_>) -> Result<(), Refusal>
    requires in_bounds { 34 * (change.old.told + 324) ≤ length change.old.events.now }
    ensures told { OnOk result (TellsAtMost 320 change.old change.new) }
    ensures adds_from { AddsFrom every change.old change.new result }
{
    let n = change.state.stored().addresses().rows.len();
    // By place: each turn changes the words that lend the addresses.
    for i in 0..n {
        install_at(change, i)?;
    }
    Ok(())
}

// 127.0.0.1 if it isn't there, with its routes; then the routes that every address has.
pub fn up(change: &mut Change<'_, '_>, clock: Nanoseconds) -> Result<(), Refusal>
    requires in_bounds { 34 * (change.old.told + event_limit) ≤ length change.old.events.now }
    ensures told { OnOk result (TellsAtMost 325 change.old change.new) }
    ensures adds_from { AddsFrom (up clock.0) change.old change.new result }
{
    let forever = Lifetimes::FOREVER;
    let loopback = [
        0x7f000001,
        0x7f000001,
        8,
        0,
        0,
        254,
        0,
        0,
        2,
        0x6f6c,
        0,
        0,
        0,
        0,
        forever.valid.0,
        forever.preferred.0,
        0,
        1,
    ];
    step_of(add_v4(change, &loopback, clock))?;
    install_all(change)
}
