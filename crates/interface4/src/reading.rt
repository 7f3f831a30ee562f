// The calls on bytes that read.
ghost use Rattle.std.specs.Prelude.{◌≡◌, [], ◌*◌, ◌≤◌, length};
ghost use Rattle.endian.specs.Endian.{words_of};
ghost use Rattle.layout.specs.Address as Address;
ghost use Rattle.layout.specs.Route as Route;
ghost use Rattle.definition.specs.Call.{Call};
ghost use Rattle.definition.specs.Step.{left_call};
ghost use Rattle.definition_bytes.specs.Bytes.{Made, on_bytes, state_fits, row_words};
ghost use Rattle.call_reply.specs.Answer.{reply_of, numbers_in};
ghost use Rattle.definition.specs.Noninterference.Public.{Made as OnWords};
ghost use Rattle.lists.specs.Lists.{Row};
ghost use Rattle.interface4.specs.Answer.{check_reply};
ghost use Rattle.interface4.specs.Reading.{row_size, Asks, local4-asks, source4-asks, source-asks, select4-asks};

use crate::{ADDRESS_BYTES, LISTING_BYTES, ROUTE_BYTES, STATE_BYTES, given, on_words};
use call_reply::Reply;
use layout::{ADDRESS_WORDS, LISTING_BUFFER, ROUTE_WORDS, STATE_WORDS};
use refusal::Refusal;

#[unsafe(no_mangle)]
pub extern "C" fn interface4_dump4(state: &[u8], listing: &mut [u8]) -> Reply
    ensures { Made (Call.dump4 (length listing.old))
        state.now listing.old (numbers_in result) state.now listing.new }
{
    if !((state.len() == STATE_BYTES) & (LISTING_BYTES <= listing.len())) {
        return Reply::from(Refusal::WrongLength);
    }
    let mut s = [0u32; STATE_WORDS];
    endian::words_of(state, &mut s);
    let mut l = [0u32; LISTING_BUFFER];
    let answer = call_dispatch::dump4(&s, &mut l);
    given::give_rows(&l, ROUTE_WORDS, answer.value, listing);
    answer
}

#[unsafe(no_mangle)]
pub extern "C" fn interface4_lookup4(state: &[u8], row: &mut [u8], ip: u32) -> Reply
    ensures { Made (Call.lookup4 (length row.old) ip)
        state.now row.old (numbers_in result) state.now row.new }
{
    interface4_lookup4_flow(state, row, ip, 0, 0)
}

// As interface4_dump4 but for the size and the call: a trait for the two would be longer than the second body.
#[unsafe(no_mangle)]
pub extern "C" fn interface4_lookup4_flow(
    state: &[u8],
    row: &mut [u8],
    ip: u32,
    tos: u32,
    oif: u32,
) -> Reply
    ensures { Made (Call.lookup4_flow (length row.old) ip tos oif)
        state.now row.old (numbers_in result) state.now row.new }
{
    if !((state.len() == STATE_BYTES) & (ROUTE_BYTES <= row.len())) {
        return Reply::from(Refusal::WrongLength);
    }
    let mut s = [0u32; STATE_WORDS];
    endian::words_of(state, &mut s);
    let mut l = [0u32; ROUTE_WORDS];
    let answer = call_dispatch::lookup4_flow(&s, &mut l, ip, tos, oif);
    given::give_rows(&l, ROUTE_WORDS, u32::from(answer.number == 0), row);
    answer
}

// A call on words that is lent no buffer, by the definition's call with the row that is handed over.
trait Asking {
    ghost call: { Self → Row → Call };

    fn make(self, state: &[u32], row: &[u32]) -> Reply
        ensures { OnWords (call self row.now)
            state.now [] (numbers_in result) state.now [] };

    ghost described: { (x : Self) → Asks (call x) };
}

#[derive(Clone, Copy)]
struct Local4(u32);

impl Asking for Local4 {
    ghost call = { λ x row. Call.local4 x.0 };

    fn make(self, state: &[u32], _row: &[u32]) -> Reply {
        call_dispatch::local4(state, self.0)
    }

    ghost described = { λ x. local4-asks x.0 };
}

#[derive(Clone, Copy)]
struct Source4(u32);

impl Asking for Source4 {
    ghost call = { λ x row. Call.source4 row x.0 };

    fn make(self, state: &[u32], row: &[u32]) -> Reply {
        call_dispatch::source4(state, row, self.0)
    }

    ghost described = { λ x. source4-asks x.0 };
}

#[derive(Clone, Copy)]
struct Source(u32);

impl Asking for Source {
    ghost call = { λ x row. Call.source x.0 };

    fn make(self, state: &[u32], _row: &[u32]) -> Reply {
        call_dispatch::source(state, self.0)
    }

    ghost described = { λ x. source-asks x.0 };
}

// As C hands them over: the mark and the address beside it are words.
#[derive(Clone, Copy)]
struct Select4 {
    dst_present: u32,
    dst: u32,
    scope: u32,
}

impl Asking for Select4 {
    ghost call = { λ x row. Call.select4 x.dst_present x.dst x.scope };

    fn make(self, state: &[u32], _row: &[u32]) -> Reply {
        call_dispatch::select4(state, self.dst_present, self.dst, self.scope)
    }

    ghost described = { λ x. select4-asks x.dst_present x.dst x.scope };
}

// The bytes of a row handed over: none where it has another length.
fn row_size(n: usize) -> usize
    ensures value { result ≡ row_size n }
    ensures upper_bound { (result ≤ n) × (result ≤ 4 * Route.size) }
{
    if n == ROUTE_BYTES { ROUTE_BYTES } else { 0 }
}

// The call on bytes. The call on words says so where the row is none. It is read by one loop, of one length or none, so that this is
// small enough for the back end to put it into each call below, where the state is copied at once.
fn ask<T: Asking + Copy>(call: T, state: &[u8], row: &[u8]) -> Reply
    ensures { Made (T.call call row.now)
        state.now [] (numbers_in result) state.now [] }
{
    if state.len() != STATE_BYTES {
        return Reply::from(Refusal::WrongLength);
    }
    let mut s = [0u32; STATE_WORDS];
    endian::words_of(state, &mut s);
    let mut r = [0u32; ROUTE_WORDS];
    let k = row_size(row.len());
    endian::words_of(&row[0..k], &mut r);
    call.make(&s, &r[0..k / 4])
}

#[unsafe(no_mangle)]
pub extern "C" fn interface4_local4(state: &[u8], ip: u32) -> Reply
    ensures { Made (Call.local4 ip)
        state.now [] (numbers_in result) state.now [] }
{
    ask(Local4(ip), state, b"")
}

#[unsafe(no_mangle)]
pub extern "C" fn interface4_source4(state: &[u8], row: &[u8], ip: u32) -> Reply
    ensures { Made (Call.source4 row.now ip)
        state.now [] (numbers_in result) state.now [] }
{
    ask(Source4(ip), state, row)
}

#[unsafe(no_mangle)]
pub extern "C" fn interface4_source(state: &[u8], ip: u32) -> Reply
    ensures { Made (Call.source ip)
        state.now [] (numbers_in result) state.now [] }
{
    ask(Source(ip), state, b"")
}

#[unsafe(no_mangle)]
pub extern "C" fn interface4_select4(state: &[u8], dst_present: u32, dst: u32, scope: u32) -> Reply
    ensures { Made (Call.select4 dst_present dst scope)
        state.now [] (numbers_in result) state.now [] }
{
    let call = Select4 {
        dst_present,
        dst,
        scope,
    };
    ask(call, state, b"")
}

// A row of another length is no address: the call on words says so.
#[unsafe(no_mangle)]
pub extern "C" fn interface4_left(row: &[u8], clock: u64) -> Reply
    ensures { result ≡ reply_of (left_call (row_words (4 * Address.size) row.now) clock) }
{
    let mut r = [0u32; ADDRESS_WORDS];
    if row.len() != ADDRESS_BYTES {
        return on_words::interface4w_left(&r[0..0], clock);
    }
    endian::words_of(row, &mut r);
    on_words::interface4w_left(&r, clock)
}

#[unsafe(no_mangle)]
pub extern "C" fn interface4_check(state: &[u8]) -> Reply
    ensures { result ≡ reply_of (on_bytes (state_fits state.now) (check_reply (words_of state.now))) }
{
    if state.len() != STATE_BYTES {
        return Reply::from(Refusal::WrongLength);
    }
    let mut s = [0u32; STATE_WORDS];
    endian::words_of(state, &mut s);
    on_words::interface4w_check(&s)
}
