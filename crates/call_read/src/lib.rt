// The calls of the host that read a state, on lent words. Each refuses unfit input and then writes nothing. Their arguments are those
// that C hands over: what may be absent is a mark and a word.
#![tactic(auto)]

ghost use Rattle.std.specs.Prelude.{◌≡◌, ◌≢◌, MatchResult, IfOk, ℕ, Ok, true, [], ◌≤◌, ◌<◌, length, get_or};
ghost use Rattle.refusal.specs.Refusal.{Refuses};
ghost use Rattle.lists.specs.Lists.{flat, put};
ghost use Rattle.rows_lookup.specs.Flow.{flow_of};
ghost use Rattle.definition.specs.State.{State};
ghost use Rattle.definition.specs.Words.{state_size, base};
ghost use Rattle.definition.specs.Reference.Lookup.{lookup_in};
ghost use Rattle.definition.specs.Step.{checked, dump4_call, lookup4_call, lookup4_flow_call, local4_call, source4_call, source_call, select4_call};
ghost use Rattle.state.specs.Represents.{Represents, represents};
ghost use Rattle.call_read.specs.Answer.{Says, Writes, nothing, flag, optional, valuing, found_number, rows_in};

use layout::{BASE_WORDS, LISTING_BUFFER, ROUTE_WORDS, STATE_WORDS};
use refusal::Refusal;
use rows_lookup::Flow;
use state::Stored;

// What every call asks, in order: the lengths of what it is lent, the state, the request. A row handed over that could stand in no
// state is a request refused as the state is.
pub fn checked<T: Drop>(s: &[u32], buffers: bool, request: Result<T, Refusal>) -> Result<T, Refusal>
    ensures refuses { (n : ℕ) → Refuses request n → Refuses result (checked (record { buffers = buffers; row = true; request = n }) s.now) }
    ensures passes { IfOk result (λ t. (length s.now ≡ state_size) × (represents (base s.now) ≡ true) × (request ≡ Ok t)) }
{
    refusal::unless((s.len() == STATE_WORDS) & buffers, Refusal::WrongLength)?;
    refusal::unless(state_well_formed::formed(s), Refusal::Malformed)?;
    request
}

// The same, and the state that the words hold.
pub fn reading<T: Drop>(
    s: &[u32],
    buffers: bool,
    request: Result<T, Refusal>,
) -> Result<(Stored<'_>, T), Refusal>
    ensures refuses { (n : ℕ) → Refuses request n → Refuses result (checked (record { buffers = buffers; row = true; request = n }) s.now) }
    ensures passes { IfOk result (λ r. (r.0.words.now ≡ base s.now) × (request ≡ Ok r.1)) }
{
    let request = checked(s, buffers, request)?;
    let words = &s[..BASE_WORDS];
    Ok((Stored { words }, request))
}

// A request of so many words.
pub fn sized<const N: usize>(q: &[u32]) -> Result<&[u32; N], Refusal>
    ensures { MatchResult result (λ r. (r.now ≡ q.now) × (length q.now ≡ N)) (λ e. (e ≡ Refusal.WrongLength) × (length q.now ≢ N)) }
{
    q.as_array().ok_or(Refusal::WrongLength)
}

// The route of a flow, copied into the buffer.
fn look(s: Stored<'_>, row: &mut [u32], f: Flow) -> Result<(), Refusal>
    requires { 32 ≤ length row.old }
    ensures value { (st : State) → Represents s.entry.words.now st → Refuses result (found_number (lookup_in st (flow_of f))) }
    ensures row_after { (st : State) → Represents s.entry.words.now st → row.new ≡ put 0 (flat (rows_in (lookup_in st (flow_of f)))) row.old }
{
    let r = state_read::lookup4_in(s, f)?;
    words::store(row, 0, r);
    Ok(())
}

// The route to a destination, in the row buffer.
pub fn lookup4(state: &[u32], row: &mut [u32], ip: u32) -> Result<(), Refusal>
    ensures { Writes nothing (lookup4_call (length row.old) ip state.now).reply row.old row.new result }
{
    lookup4_flow(state, row, ip, 0, 0)
}

// The same for a type of service and a device, 0 for any.
pub fn lookup4_flow(
    state: &[u32],
    row: &mut [u32],
    ip: u32,
    tos: u32,
    oif: u32,
) -> Result<(), Refusal>
    ensures { Writes nothing (lookup4_flow_call (length row.old) ip tos oif state.now).reply row.old row.new result }
{
    let fit = request_fit::fit_flow(tos);
    let (s, ()) = reading(state, ROUTE_WORDS <= row.len(), fit)?;
    let f = Flow {
        ip,
        tos,
        scope: 0,
        oif,
    };
    look(s, row, f)
}

// Whether the address is the loopback's. A line of `reading` and one of its own call, here and in `source`.
pub fn local4(state: &[u32], ip: u32) -> Result<bool, Refusal>
    ensures { Says flag (local4_call ip state.now).reply result }
{
    let (s, ()) = reading(state, true, Ok(()))?;
    Ok(state_read::local4(s, ip))
}

// The source address for a destination; 127.0.0.1 where there is no other.
pub fn source(state: &[u32], ip: u32) -> Result<u32, Refusal>
    ensures { Says valuing (source_call ip state.now).reply result }
{
    let (s, ()) = reading(state, true, Ok(()))?;
    Ok(state_read::source(s, ip))
}

// The source address for a route, handed over as any words.
pub fn source4(state: &[u32], row: &[u32], ip: u32) -> Result<Option<u32>, Refusal>
    ensures { Says optional (source4_call row.now ip state.now).reply result }
{
    let row = row_route::fit_route(row).ok_or(Refusal::Malformed);
    let (s, row) = reading(state, true, row)?;
    Ok(state_read::source4(s, row, ip))
}

// The address that is chosen for a scope, and for a destination if there is one.
pub fn select4(
    state: &[u32],
    dst_present: u32,
    dst: u32,
    scope: u32,
) -> Result<Option<u32>, Refusal>
    ensures { Says optional (select4_call dst_present dst scope state.now).reply result }
{
    let dst = request_fit::fit_select(dst_present, dst, scope);
    let (s, dst) = reading(state, true, dst)?;
    Ok(state_read::select4(s, dst, scope))
}

// The route rows of the listed tables, in the order in which Linux lists tables.
pub fn dump4(state: &[u32], listing: &mut [u32]) -> Result<usize, Refusal>
    ensures { Writes valuing (dump4_call (length listing.old) state.now).reply listing.old listing.new result }
{
    let (s, ()) = reading(state, LISTING_BUFFER <= listing.len(), Ok(()))?;
    Ok(state_read::list(s, listing))
}
