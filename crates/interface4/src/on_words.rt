// The calls on words, without a copy.
ghost use Rattle.std.specs.Prelude.{◌≡◌, [], length};
ghost use Rattle.definition.specs.Call.{Call};
ghost use Rattle.definition.specs.Step.{left_call};
ghost use Rattle.definition.specs.Noninterference.Public.{Made};
ghost use Rattle.call_reply.specs.Answer.{reply_of, numbers_in};
ghost use Rattle.interface4.specs.Answer.{check_reply};

use call_reply::Reply;

#[unsafe(no_mangle)]
pub extern "C" fn interface4w_up(state: &mut [u32], events: &mut [u32], clock: u64) -> Reply
    ensures { Made (Call.up (length events.old) clock)
        state.old events.old (numbers_in result) state.new events.new }
{
    call_dispatch::up(state, events, clock)
}

#[unsafe(no_mangle)]
pub extern "C" fn interface4w_down(state: &mut [u32], events: &mut [u32]) -> Reply
    ensures { Made (Call.down (length events.old))
        state.old events.old (numbers_in result) state.new events.new }
{
    call_dispatch::down(state, events)
}

#[unsafe(no_mangle)]
pub extern "C" fn interface4w_add_v4(
    state: &mut [u32],
    request: &[u32],
    events: &mut [u32],
    clock: u64,
) -> Reply
    ensures { Made (Call.add_v4 request.now (length events.old) clock)
        state.old events.old (numbers_in result) state.new events.new }
{
    call_dispatch::add_v4(state, request, events, clock)
}

#[unsafe(no_mangle)]
pub extern "C" fn interface4w_del_v4(
    state: &mut [u32],
    request: &[u32],
    events: &mut [u32],
) -> Reply
    ensures { Made (Call.del_v4 request.now (length events.old))
        state.old events.old (numbers_in result) state.new events.new }
{
    call_dispatch::del_v4(state, request, events)
}

#[unsafe(no_mangle)]
pub extern "C" fn interface4w_expire(
    state: &mut [u32],
    events: &mut [u32],
    clock: u64,
    allowance: u64,
) -> Reply
    ensures { Made (Call.expire (length events.old) clock allowance)
        state.old events.old (numbers_in result) state.new events.new }
{
    call_dispatch::expire(state, events, clock, allowance)
}

#[unsafe(no_mangle)]
pub extern "C" fn interface4w_add_route4(
    state: &mut [u32],
    request: &[u32],
    events: &mut [u32],
) -> Reply
    ensures { Made (Call.add_route4 request.now (length events.old))
        state.old events.old (numbers_in result) state.new events.new }
{
    call_dispatch::add_route4(state, request, events)
}

#[unsafe(no_mangle)]
pub extern "C" fn interface4w_del_route4(
    state: &mut [u32],
    request: &[u32],
    events: &mut [u32],
) -> Reply
    ensures { Made (Call.del_route4 request.now (length events.old))
        state.old events.old (numbers_in result) state.new events.new }
{
    call_dispatch::del_route4(state, request, events)
}

#[unsafe(no_mangle)]
pub extern "C" fn interface4w_dump4(state: &[u32], listing: &mut [u32]) -> Reply
    ensures { Made (Call.dump4 (length listing.old))
        state.now listing.old (numbers_in result) state.now listing.new }
{
    call_dispatch::dump4(state, listing)
}

#[unsafe(no_mangle)]
pub extern "C" fn interface4w_lookup4(state: &[u32], row: &mut [u32], ip: u32) -> Reply
    ensures { Made (Call.lookup4 (length row.old) ip)
        state.now row.old (numbers_in result) state.now row.new }
{
    call_dispatch::lookup4(state, row, ip)
}

#[unsafe(no_mangle)]
pub extern "C" fn interface4w_lookup4_flow(
    state: &[u32],
    row: &mut [u32],
    ip: u32,
    tos: u32,
    oif: u32,
) -> Reply
    ensures { Made (Call.lookup4_flow (length row.old) ip tos oif)
        state.now row.old (numbers_in result) state.now row.new }
{
    call_dispatch::lookup4_flow(state, row, ip, tos, oif)
}

#[unsafe(no_mangle)]
pub extern "C" fn interface4w_local4(state: &[u32], ip: u32) -> Reply
    ensures { Made (Call.local4 ip)
        state.now [] (numbers_in result) state.now [] }
{
    call_dispatch::local4(state, ip)
}

#[unsafe(no_mangle)]
pub extern "C" fn interface4w_source4(state: &[u32], row: &[u32], ip: u32) -> Reply
    ensures { Made (Call.source4 row.now ip)
        state.now [] (numbers_in result) state.now [] }
{
    call_dispatch::source4(state, row, ip)
}

#[unsafe(no_mangle)]
pub extern "C" fn interface4w_source(state: &[u32], ip: u32) -> Reply
    ensures { Made (Call.source ip)
        state.now [] (numbers_in result) state.now [] }
{
    call_dispatch::source(state, ip)
}

#[unsafe(no_mangle)]
pub extern "C" fn interface4w_select4(
    state: &[u32],
    dst_present: u32,
    dst: u32,
    scope: u32,
) -> Reply
    ensures { Made (Call.select4 dst_present dst scope)
        state.now [] (numbers_in result) state.now [] }
{
    call_dispatch::select4(state, dst_present, dst, scope)
}

#[unsafe(no_mangle)]
pub extern "C" fn interface4w_left(row: &[u32], clock: u64) -> Reply
    ensures { result ≡ reply_of (left_call row.now clock) }
{
    call_reply::remaining(row_address::left(row, clock))
}

// A host may look at words before it lends them on: no number but 200 and 201.
#[unsafe(no_mangle)]
pub extern "C" fn interface4w_check(state: &[u32]) -> Reply
    ensures { result ≡ reply_of (check_reply state.now) }
{
    Reply::of(state_well_formed::check(state))
}
