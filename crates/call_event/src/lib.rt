// The call that writes an event as a message onto a socket, on lent words and bytes. What is refused writes nothing.
#![tactic(auto)]

ghost use Rattle.std.specs.Prelude.{◌≡◌, length};
ghost use Rattle.std.specs.Option.{is_some, IfSome};
ghost use Rattle.lists.specs.Lists.{flat, put};
ghost use Rattle.definition.specs.Call.{numbers};
ghost use Rattle.refusal.specs.Refusal.{Refuses};
ghost use Rattle.call_read.specs.Answer.{answer_by, valuing};
ghost use Rattle.netlink_event.specs.Writer.{writes, write_call};

use layout::{EVENT_WORDS, EventRow, event};
use refusal::{Refusal, unless};

// The most bytes of a message.
pub const MESSAGE_BYTES: usize = 216;

// The event, if it is of a kind from 1 to 4, with flags that a header holds, and its row could stand in a well-formed state.
fn fit_event(event: &[u32]) -> Option<&EventRow>
    ensures fits { is_some result ≡ writes event.now }
    ensures same { IfSome result (λ e. e.now ≡ event.now) }
{
    let event = event.as_array::<EVENT_WORDS>()?;
    if 65535 < event[event::FLAGS] {
        return None;
    }
    match event[event::KIND] {
        event::NEW_ADDR4 | event::DEL_ADDR4 => {
            let row = row_address::fit_address(&event[event::ROW..event::BEHIND_ADDRESS]);
            row.is_some().then_some(event)
        }
        event::NEW_ROUTE4 | event::DEL_ROUTE4 => {
            let row = row_route::fit_route(&event[event::ROW..]);
            row.is_some().then_some(event)
        }
        _ => None,
    }
}

// An event as a message; how many bytes it has. `clock` is when it is written, for what is left of an address's lifetimes.
pub fn write(
    event: &[u32],
    message: &mut [u8],
    sequence: u32,
    port: u32,
    clock: u64,
) -> Result<u32, Refusal>
    ensures refuses { Refuses result (write_call (length message.old) sequence port clock event.now).number }
    ensures says { answer_by valuing result ≡ numbers (write_call (length message.old) sequence port clock event.now) }
    ensures bytes_after { message.new ≡ put 0 (flat (write_call (length message.old) sequence port clock event.now).rows) message.old }
{
    unless(MESSAGE_BYTES <= message.len(), Refusal::WrongLength)?;
    let event = fit_event(event).ok_or(Refusal::Malformed)?;
    Ok(netlink_write::write(event, message, sequence, port, clock) as u32)
}
