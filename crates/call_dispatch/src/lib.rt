// Every call with its answer as numbers, and every call by the number that the list of answers gives it (host/README.md).
// One function for each C name, with the arguments that C hands over: what may be absent is a mark and a word.
#![tactic(auto)]

ghost use Rattle.std.specs.Prelude.{◌≡◌, [], ◌≤◌, length};
ghost use Rattle.layout.specs.Event as Event;
ghost use Rattle.definition.specs.Call.{Call};
ghost use Rattle.definition.specs.Step.{event_room, step};
ghost use Rattle.definition.specs.Noninterference.Public.{Made};
ghost use Rattle.call_mask.specs.Masked.{add_v4_mask_call, del_v4_mask_call};
ghost use Rattle.call_reply.specs.Answer.{numbers_in};
ghost use Rattle.call_dispatch.specs.Numbered.{Did};

pub mod numbered;

use call_reply::Reply;

// ---- those that change the state
pub fn up(state: &mut [u32], events: &mut [u32], clock: u64) -> Reply
    ensures { Made (Call.up (length events.old) clock)
        state.old events.old (numbers_in result) state.new events.new }
{
    Reply::of(call_change::up(state, events, clock))
}

pub fn down(state: &mut [u32], events: &mut [u32]) -> Reply
    ensures { Made (Call.down (length events.old))
        state.old events.old (numbers_in result) state.new events.new }
{
    Reply::of(call_change::down(state, events))
}

pub fn add_v4(state: &mut [u32], q: &[u32], events: &mut [u32], clock: u64) -> Reply
    ensures { Made (Call.add_v4 q.now (length events.old) clock)
        state.old events.old (numbers_in result) state.new events.new }
{
    Reply::of(call_change::add_v4(state, q, events, clock))
}

pub fn del_v4(state: &mut [u32], q: &[u32], events: &mut [u32]) -> Reply
    ensures { Made (Call.del_v4 q.now (length events.old))
        state.old events.old (numbers_in result) state.new events.new }
{
    Reply::of(call_change::del_v4(state, q, events))
}

pub fn expire(state: &mut [u32], events: &mut [u32], clock: u64, allowance: u64) -> Reply
    ensures { Made (Call.expire (length events.old) clock allowance)
        state.old events.old (numbers_in result) state.new events.new }
{
    Reply::of(call_change::expire(state, events, clock, allowance))
}

pub fn add_route4(state: &mut [u32], q: &[u32], events: &mut [u32]) -> Reply
    ensures { Made (Call.add_route4 q.now (length events.old))
        state.old events.old (numbers_in result) state.new events.new }
{
    Reply::of(call_change::add_route4(state, q, events))
}

pub fn del_route4(state: &mut [u32], q: &[u32], events: &mut [u32]) -> Reply
    ensures { Made (Call.del_route4 q.now (length events.old))
        state.old events.old (numbers_in result) state.new events.new }
{
    Reply::of(call_change::del_route4(state, q, events))
}

// ---- those that write one row at most, for a caller that was lent room for so many words and lends on that of a row
// (interface4 hands both over)
pub fn down_lent(state: &mut [u32], room: usize, events: &mut [u32]) -> Reply
    requires { event_room ≤ room → Event.size ≤ length events.old }
    ensures { Did (step (Call.down room) state.old)
        events.old result state.new events.new }
{
    Reply::of(call_change::down_lent(state, room, events))
}

pub fn add_route4_lent(state: &mut [u32], q: &[u32], room: usize, events: &mut [u32]) -> Reply
    requires { event_room ≤ room → Event.size ≤ length events.old }
    ensures { Did (step (Call.add_route4 q.now room) state.old)
        events.old result state.new events.new }
{
    Reply::of(call_change::add_route4_lent(state, q, room, events))
}

pub fn del_route4_lent(state: &mut [u32], q: &[u32], room: usize, events: &mut [u32]) -> Reply
    requires { event_room ≤ room → Event.size ≤ length events.old }
    ensures { Did (step (Call.del_route4 q.now room) state.old)
        events.old result state.new events.new }
{
    Reply::of(call_change::del_route4_lent(state, q, room, events))
}

// ---- those with a netmask in place of the prefix, which are no Call of the definition
pub fn add_v4_mask(state: &mut [u32], q: &[u32], events: &mut [u32], clock: u64) -> Reply
    ensures { Did (add_v4_mask_call q.now (length events.old) clock state.old)
        events.old result state.new events.new }
{
    Reply::of(call_mask::add_v4(state, q, events, clock))
}

pub fn del_v4_mask(state: &mut [u32], q: &[u32], events: &mut [u32]) -> Reply
    ensures { Did (del_v4_mask_call q.now (length events.old) state.old)
        events.old result state.new events.new }
{
    Reply::of(call_mask::del_v4(state, q, events))
}

// ---- those that read, and write rows
pub fn dump4(state: &[u32], listing: &mut [u32]) -> Reply
    ensures { Made (Call.dump4 (length listing.old))
        state.now listing.old (numbers_in result) state.now listing.new }
{
    Reply::of(call_read::dump4(state, listing))
}

pub fn lookup4(state: &[u32], row: &mut [u32], ip: u32) -> Reply
    ensures { Made (Call.lookup4 (length row.old) ip)
        state.now row.old (numbers_in result) state.now row.new }
{
    Reply::of(call_read::lookup4(state, row, ip))
}

pub fn lookup4_flow(state: &[u32], row: &mut [u32], ip: u32, tos: u32, oif: u32) -> Reply
    ensures { Made (Call.lookup4_flow (length row.old) ip tos oif)
        state.now row.old (numbers_in result) state.now row.new }
{
    Reply::of(call_read::lookup4_flow(state, row, ip, tos, oif))
}

// ---- those that are lent no buffer
pub fn local4(state: &[u32], ip: u32) -> Reply
    ensures { Made (Call.local4 ip)
        state.now [] (numbers_in result) state.now [] }
{
    Reply::of(call_read::local4(state, ip))
}

pub fn source4(state: &[u32], row: &[u32], ip: u32) -> Reply
    ensures { Made (Call.source4 row.now ip)
        state.now [] (numbers_in result) state.now [] }
{
    Reply::of(call_read::source4(state, row, ip))
}

pub fn source(state: &[u32], ip: u32) -> Reply
    ensures { Made (Call.source ip)
        state.now [] (numbers_in result) state.now [] }
{
    Reply::of(call_read::source(state, ip))
}

pub fn select4(state: &[u32], dst_present: u32, dst: u32, scope: u32) -> Reply
    ensures { Made (Call.select4 dst_present dst scope)
        state.now [] (numbers_in result) state.now [] }
{
    Reply::of(call_read::select4(state, dst_present, dst, scope))
}
