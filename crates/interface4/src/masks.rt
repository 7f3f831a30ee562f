// Requests for an address with a netmask in place of the prefix, on words and on bytes, and the prefix of a netmask.
ghost use Rattle.std.specs.Prelude.{◌≡◌, ◌≢◌, ◌<◌, ◌≤◌, true, ◌*◌, length, flat_map, MatchResult};
ghost use Rattle.refusal.specs.Refusal.{number_of};
ghost use Rattle.netmask.specs.Netmask.{good};
ghost use Rattle.layout.specs.Request.{add_v4_size, del_v4_size, del_route4_size};
ghost use Rattle.endian.specs.Endian.{words_of};
ghost use Rattle.definition.specs.Call.{refusal};
ghost use Rattle.definition.specs.Step.{checked, event_room};
ghost use Rattle.definition_bytes.specs.Bytes.{on_bytes, with};
ghost use Rattle.call_mask.specs.Masked.{mask_at, prefixed, add_v4_mask_call, del_v4_mask_call};
ghost use Rattle.call_reply.specs.Answer.{reply_of, numbers_in};
ghost use Rattle.call_dispatch.specs.Numbered.{Did};
ghost use Rattle.interface4.specs.Changing.{change_fits};
ghost use Rattle.interface4.specs.Answer.{prefix_reply};
ghost use Rattle.interface4.specs.Mask.{MadeOn, BadBytes};

use crate::{EVENT_BYTES, STATE_BYTES, changing};
use call_reply::Reply;
use layout::{ADD_V4_WORDS, DEL_V4_WORDS, STATE_WORDS, address, del_v4};
use refusal::Refusal;

#[unsafe(no_mangle)]
pub extern "C" fn interface4_prefix(mask: u32) -> Reply
    ensures { result ≡ reply_of (prefix_reply mask) }
{
    Reply::of(netmask::prefix_of(mask))
}

#[unsafe(no_mangle)]
pub extern "C" fn interface4w_add_v4_mask(
    state: &mut [u32],
    request: &[u32],
    events: &mut [u32],
    clock: u64,
) -> Reply
    ensures { Did (add_v4_mask_call request.now (length events.old) clock state.old)
        events.old result state.new events.new }
{
    call_dispatch::add_v4_mask(state, request, events, clock)
}

#[unsafe(no_mangle)]
pub extern "C" fn interface4w_del_v4_mask(
    state: &mut [u32],
    request: &[u32],
    events: &mut [u32],
) -> Reply
    ensures { Did (del_v4_mask_call request.now (length events.old) state.old)
        events.old result state.new events.new }
{
    call_dispatch::del_v4_mask(state, request, events)
}

// The refusal of a mask, behind those of the state and of the room for events.
fn refuse(state: &[u8], room: usize, bad: Refusal) -> Reply
    requires { number_of bad ≢ 0 }
    ensures { result ≡ reply_of (on_bytes (with state.now (4 * event_room) room)
        (refusal (checked (record { buffers = true; row = true; request = number_of bad }) (words_of state.now)))) }
{
    if !((state.len() == STATE_BYTES) & (EVENT_BYTES <= room)) {
        return Reply::from(Refusal::WrongLength);
    }
    let mut s = [0u32; STATE_WORDS];
    endian::words_of(state, &mut s);
    Reply::of(call_read::checked::<()>(&s, true, Err(bad)))
}

// A request of N words with the prefix in the place of the mask, each word as its bytes, or the reply that refuses it.
fn asked<const N: usize>(
    state: &[u8],
    request: &[u8],
    at: usize,
    room: usize,
) -> Result<[[u8; 4]; N], Reply>
    requires { (at < N) × (N ≤ del_route4_size) }
    ensures { MatchResult result
        (λ own. (length request.now ≡ 4 * N) × (good (mask_at at (words_of request.now)) ≡ true) × (words_of (flat_map (λ x. x) own) ≡ prefixed at (words_of request.now)))
        (λ r. BadBytes N at request.now state.now room r) }
{
    if request.len() != 4 * N {
        return Err(Reply::from(Refusal::WrongLength));
    }
    let mut q = [0u32; N];
    endian::words_of(request, &mut q);
    match call_mask::prefixed(&q, at) {
        Ok(own) => Ok(own.map(u32::to_le_bytes)),
        Err(bad) => Err(refuse(state, room, bad)),
    }
}

#[unsafe(no_mangle)]
pub extern "C" fn interface4_add_v4_mask(
    state: &mut [u8],
    request: &[u8],
    events: &mut [u8],
    clock: u64,
) -> Reply
    ensures { MadeOn (change_fits add_v4_size request.now state.old events.old)
        (add_v4_mask_call (words_of request.now) event_room clock (words_of state.old))
        state.old events.old (numbers_in result) state.new events.new }
{
    match asked::<ADD_V4_WORDS>(state, request, address::PREFIX, events.len()) {
        Ok(own) => changing::interface4_add_v4(state, own.as_flattened(), events, clock),
        Err(refused) => refused,
    }
}

#[unsafe(no_mangle)]
pub extern "C" fn interface4_del_v4_mask(
    state: &mut [u8],
    request: &[u8],
    events: &mut [u8],
) -> Reply
    ensures { MadeOn (change_fits del_v4_size request.now state.old events.old)
        (del_v4_mask_call (words_of request.now) event_room (words_of state.old))
        state.old events.old (numbers_in result) state.new events.new }
{
    match asked::<DEL_V4_WORDS>(state, request, del_v4::PREFIX, events.len()) {
        Ok(own) => changing::interface4_del_v4(state, own.as_flattened(), events),
        Err(refused) => refused,
    }
}
