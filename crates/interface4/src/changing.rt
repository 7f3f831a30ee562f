// The calls on bytes that change the state.
ghost use Rattle.std.specs.Prelude.{◌≡◌, ◌≤◌, ℕ, true, cond, eqb, ◌*◌, length};
ghost use Rattle.endian.specs.Endian.{bytes_of};
ghost use Rattle.endian.specs.Laws.{Below};
ghost use Rattle.definition.specs.Words.{state_size};
ghost use Rattle.definition.specs.Call.{Call};
ghost use Rattle.definition.specs.Step.{step, event_room};
ghost use Rattle.definition_bytes.specs.Bytes.{Made};
ghost use Rattle.call_reply.specs.Answer.{numbers_in};
ghost use Rattle.call_dispatch.specs.Numbered.{Change, Did, up_at, down_at, add_v4_at, del_v4_at, expire_at, add_route4_at, del_route4_at};
ghost use Rattle.interface4.specs.Changing.{Described, up-described, down-described, add_v4-described, del_v4-described, expire-described, add_route4-described, del_route4-described};

use crate::{EVENT_BYTES, STATE_BYTES, given};
use call_reply::Reply;
use layout::{
    ADD_ROUTE4_WORDS, ADD_V4_WORDS, DEL_ROUTE4_WORDS, DEL_V4_WORDS, EVENT_BUFFER, EVENT_WORDS,
    STATE_WORDS,
};
use refusal::Refusal;

// A call on words, by the definition's description of it. It is lent ROOM words for its rows: those of all that there may be, or, where
// it writes one at most, of one, since clearing the room of all would be most of its time.
trait Changing<const ROOM: usize> {
    ghost change: { Change };

    // The words of its request.
    ghost WORDS: { ℕ };

    const WORDS: usize;

    fn make(
        state: &mut [u32],
        q: &[u32],
        clock: u64,
        allowance: u64,
        events: &mut [u32; ROOM],
    ) -> Reply
        ensures { Did (step (change.call q.now clock allowance event_room) state.old)
            events.old result state.new events.new };

    // With this reply it left every word. It is asked of the reply, and of no Result: the calls of call_dispatch, which these are, give one.
    fn still(reply: Reply) -> bool
        ensures { result ≡ change.still reply.number reply.value };

    ghost described: { Described change WORDS };
}

struct Up;

impl Changing<EVENT_BUFFER> for Up {
    ghost change = { up_at };

    ghost WORDS = { 0 };

    const WORDS: usize = 0;

    fn make(
        state: &mut [u32],
        _q: &[u32],
        clock: u64,
        _allowance: u64,
        events: &mut [u32; EVENT_BUFFER],
    ) -> Reply {
        call_dispatch::up(state, events, clock)
    }

    fn still(reply: Reply) -> bool {
        1 <= reply.number
    }

    ghost described = { up-described };
}

struct Down;

impl Changing<EVENT_WORDS> for Down {
    ghost change = { down_at };

    ghost WORDS = { 0 };

    const WORDS: usize = 0;

    fn make(
        state: &mut [u32],
        _q: &[u32],
        _clock: u64,
        _allowance: u64,
        events: &mut [u32; EVENT_WORDS],
    ) -> Reply {
        call_dispatch::down_lent(state, EVENT_BUFFER, events)
    }

    fn still(reply: Reply) -> bool {
        1 <= reply.number
    }

    ghost described = { down-described };
}

struct AddV4;

impl Changing<EVENT_BUFFER> for AddV4 {
    ghost change = { add_v4_at };

    ghost WORDS = { 18 };

    const WORDS: usize = ADD_V4_WORDS;

    fn make(
        state: &mut [u32],
        q: &[u32],
        clock: u64,
        _allowance: u64,
        events: &mut [u32; EVENT_BUFFER],
    ) -> Reply {
        call_dispatch::add_v4(state, q, events, clock)
    }

    fn still(reply: Reply) -> bool {
        1 <= reply.number
    }

    ghost described = { add_v4-described };
}

struct DelV4;

impl Changing<EVENT_BUFFER> for DelV4 {
    ghost change = { del_v4_at };

    ghost WORDS = { 11 };

    const WORDS: usize = DEL_V4_WORDS;

    fn make(
        state: &mut [u32],
        q: &[u32],
        _clock: u64,
        _allowance: u64,
        events: &mut [u32; EVENT_BUFFER],
    ) -> Reply {
        call_dispatch::del_v4(state, q, events)
    }

    fn still(reply: Reply) -> bool {
        1 <= reply.number
    }

    ghost described = { del_v4-described };
}

struct Expire;

impl Changing<EVENT_BUFFER> for Expire {
    ghost change = { expire_at };

    ghost WORDS = { 0 };

    const WORDS: usize = 0;

    fn make(
        state: &mut [u32],
        _q: &[u32],
        clock: u64,
        allowance: u64,
        events: &mut [u32; EVENT_BUFFER],
    ) -> Reply {
        call_dispatch::expire(state, events, clock, allowance)
    }

    fn still(reply: Reply) -> bool {
        reply.value == 0
    }

    ghost described = { expire-described };
}

struct AddRoute4;

impl Changing<EVENT_WORDS> for AddRoute4 {
    ghost change = { add_route4_at };

    ghost WORDS = { 34 };

    const WORDS: usize = ADD_ROUTE4_WORDS;

    fn make(
        state: &mut [u32],
        q: &[u32],
        _clock: u64,
        _allowance: u64,
        events: &mut [u32; EVENT_WORDS],
    ) -> Reply {
        call_dispatch::add_route4_lent(state, q, EVENT_BUFFER, events)
    }

    fn still(reply: Reply) -> bool {
        // A refusal by the reference may have listed the table.
        call_reply::unfit(reply.number)
    }

    ghost described = { add_route4-described };
}

struct DelRoute4;

impl Changing<EVENT_WORDS> for DelRoute4 {
    ghost change = { del_route4_at };

    ghost WORDS = { 49 };

    const WORDS: usize = DEL_ROUTE4_WORDS;

    fn make(
        state: &mut [u32],
        q: &[u32],
        _clock: u64,
        _allowance: u64,
        events: &mut [u32; EVENT_WORDS],
    ) -> Reply {
        call_dispatch::del_route4_lent(state, q, EVENT_BUFFER, events)
    }

    fn still(reply: Reply) -> bool {
        1 <= reply.number
    }

    ghost described = { del_route4-described };
}

// The state's words, as bytes. Where the call kept them, the bytes are there already.
fn give_back(kept: bool, s: &[u32], state: &mut [u8])
    requires s_len { (length s.now ≡ state_size) × (length state.old ≡ 4 * state_size) }
    requires state_value { kept ≡ true → state.old ≡ bytes_of s.now }
    ensures state_after { state.new ≡ bytes_of s.now }
    ensures below { Below 4294967296 s.now }
{
    if kept {
        return;
    }
    endian::bytes_of(s, state);
}

// The call on bytes, with the bytes of its request, or none.
fn change<const ROOM: usize, T: Changing<ROOM>>(
    state: &mut [u8],
    request: &[u8],
    clock: u64,
    allowance: u64,
    events: &mut [u8],
) -> Reply
    requires none { cond (eqb T.WORDS 0) (length request.now) 0 ≡ 0 }
    requires room { ROOM ≤ event_room }
    ensures { Made (T.change.call request.now clock allowance (length events.old))
        state.old events.old (numbers_in result) state.new events.new }
{
    if !((request.len() == 4 * T::WORDS)
        & ((state.len() == STATE_BYTES) & (EVENT_BYTES <= events.len())))
    {
        return Reply::from(Refusal::WrongLength);
    }
    let mut q = [0u32; DEL_ROUTE4_WORDS];
    endian::words_of(request, &mut q);
    let mut s = [0u32; STATE_WORDS];
    endian::words_of(state, &mut s);
    let mut e = [0u32; ROOM];
    let answer = T::make(&mut s, &q[0..T::WORDS], clock, allowance, &mut e);
    give_back(T::still(answer), &s, state);
    given::give_rows(&e, EVENT_WORDS, answer.value, events);
    answer
}

#[unsafe(no_mangle)]
pub extern "C" fn interface4_up(state: &mut [u8], events: &mut [u8], clock: u64) -> Reply
    ensures { Made (Call.up (length events.old) clock)
        state.old events.old (numbers_in result) state.new events.new }
{
    change::<EVENT_BUFFER, Up>(state, b"", clock, 0, events)
}

#[unsafe(no_mangle)]
pub extern "C" fn interface4_down(state: &mut [u8], events: &mut [u8]) -> Reply
    ensures { Made (Call.down (length events.old))
        state.old events.old (numbers_in result) state.new events.new }
{
    change::<EVENT_WORDS, Down>(state, b"", 0, 0, events)
}

#[unsafe(no_mangle)]
pub extern "C" fn interface4_add_v4(
    state: &mut [u8],
    request: &[u8],
    events: &mut [u8],
    clock: u64,
) -> Reply
    ensures { Made (Call.add_v4 request.now (length events.old) clock)
        state.old events.old (numbers_in result) state.new events.new }
{
    change::<EVENT_BUFFER, AddV4>(state, request, clock, 0, events)
}

#[unsafe(no_mangle)]
pub extern "C" fn interface4_del_v4(state: &mut [u8], request: &[u8], events: &mut [u8]) -> Reply
    ensures { Made (Call.del_v4 request.now (length events.old))
        state.old events.old (numbers_in result) state.new events.new }
{
    change::<EVENT_BUFFER, DelV4>(state, request, 0, 0, events)
}

#[unsafe(no_mangle)]
pub extern "C" fn interface4_expire(
    state: &mut [u8],
    events: &mut [u8],
    clock: u64,
    allowance: u64,
) -> Reply
    ensures { Made (Call.expire (length events.old) clock allowance)
        state.old events.old (numbers_in result) state.new events.new }
{
    change::<EVENT_BUFFER, Expire>(state, b"", clock, allowance, events)
}

#[unsafe(no_mangle)]
pub extern "C" fn interface4_add_route4(
    state: &mut [u8],
    request: &[u8],
    events: &mut [u8],
) -> Reply
    ensures { Made (Call.add_route4 request.now (length events.old))
        state.old events.old (numbers_in result) state.new events.new }
{
    change::<EVENT_WORDS, AddRoute4>(state, request, 0, 0, events)
}

#[unsafe(no_mangle)]
pub extern "C" fn interface4_del_route4(
    state: &mut [u8],
    request: &[u8],
    events: &mut [u8],
) -> Reply
    ensures { Made (Call.del_route4 request.now (length events.old))
        state.old events.old (numbers_in result) state.new events.new }
{
    change::<EVENT_WORDS, DelRoute4>(state, request, 0, 0, events)
}
