// Lookups over rows of routes: one pass, keeping the best.
#![tactic(auto)]

ghost use Rattle.std.specs.Prelude.{◌≡◌, ◌&&◌, ◌≤◌, leb, MatchOption};
ghost use Rattle.lists.specs.Library.{lent, lent_ok};
ghost use Rattle.kind.specs.Kind.{code_of};
ghost use Rattle.layout.specs.Route.{table, len};
ghost use Rattle.definition.specs.Reference.Lookup.{fits, answer, flow_to, settled, ruling};
ghost use Rattle.rows_lookup.specs.Flow.{flow_of, set_of};
ghost use Rattle.rows_lookup.specs.Answer.{answered, rules, lookup_rows};
ghost use Rattle.rows_lookup.specs.AddrType.{type_rows, local_rows};

use kind::Kind;
use layout::{RouteRow, route};
use refusal::Refusal;
use rows::Routes;

// What a lookup asks for: a destination, and the tos, scope and device (0 for any) of the flow.
#[derive(Clone, Copy)]
pub struct Flow {
    pub ip: u32,
    pub tos: u32,
    pub scope: u32,
    pub oif: u32,
}

impl Flow {
    // To a destination, whatever the tos, scope and device.
    pub fn to(ip: u32) -> Flow
        ensures { flow_of result ≡ flow_to ip }
    {
        Flow {
            ip,
            tos: 0,
            scope: 0,
            oif: 0,
        }
    }
}

// The tables that are read together: two, or the same one twice, so that a row is tested without a branch.
#[derive(Clone, Copy)]
pub struct Tables {
    pub one: u32,
    pub other: u32,
}

impl Tables {
    pub fn alone(table: u32) -> Tables
        ensures { result ≡ record { one = table; other = table } }
    {
        Tables {
            one: table,
            other: table,
        }
    }

    pub fn has(self, table: u32) -> bool
        ensures { result ≡ set_of self table }
    {
        (table == self.one) | (table == self.other)
    }
}

// 255 and 254, which are read first.
pub const UPPER: Tables = Tables {
    one: layout::TABLE_LOCAL,
    other: layout::TABLE_MAIN,
};

// 253, which is read behind them.
pub const LOWER: Tables = Tables {
    one: layout::TABLE_DEFAULT,
    other: layout::TABLE_DEFAULT,
};

// Whether a row fits the flow. Most rows are to other destinations, so that is asked first, and the rest without a branch.
#[tactic(auto, unfolding(definition::specs::Reference::Lookup::fits))]
pub fn fits(r: &RouteRow, f: Flow) -> bool
    ensures { result ≡ fits (flow_of f) r.now }
{
    if r[route::DST] != prefix::network4(f.ip, r[route::LEN]) {
        return false;
    }
    let tos = prefix::flow_tos(f.tos);
    let rejects = kind::rejects(r[route::KIND]);
    ((r[route::TOS] == 0) | (r[route::TOS] == tos))
        & (f.scope <= r[route::SCOPE])
        & (rejects | (f.oif == 0) | ((f.oif == 1) & (r[route::DEVICE] == 1)))
}

// Whether a row of the set fits the flow and is long enough.
fn better(r: &RouteRow, set: Tables, f: Flow, least: u32) -> bool
    ensures { result ≡ (set_of set (table r.now) && fits (flow_of f) r.now && leb least (len r.now)) }
{
    let fit = fits(r, f);
    set.has(r[route::TABLE]) & fit & (least <= r[route::LEN])
}

// The row that the set answers with: one pass, the best so far kept.
pub fn table_lookup4<'a>(routes: Routes<'a>, set: Tables, f: Flow) -> Option<&'a RouteRow>
    ensures { lent result ≡ answer (set_of set) (flow_of f) routes.entry.rows.now }
{
    let mut best = None;
    let mut least = 0u32;
    for r in routes.rows {
        if better(r, set, f, least) {
            best = Some(r);
            least = r[route::LEN] + 1;
        }
    }
    best
}

// What a set's answer comes to; none and a throw alike lead on.
pub fn ruled<'a>(found: Option<&'a RouteRow>) -> Option<Result<&'a RouteRow, Refusal>>
    ensures { rules (lent found.entry) result }
{
    let r = found?;
    match kind::error_of(r[route::KIND]) {
        None => Some(Ok(r)),
        Some(layout::AGAIN) => None,
        Some(error) => Some(Err(Refusal::Errno(error))),
    }
}

// 255 and 254 together, then 253 if it is listed; none and a throw alike lead on, and at the end there is no route. Here and in what
// asks it (`rows_source`, `request_prefsrc`, `request_gateway`) each function takes the rows and what is listed of the tables that it
// reads, and no struct of both flags: a lookup's caller would search the tables for 255 in vain.
pub fn lookup4_in<'a>(
    routes: Routes<'a>,
    default_listed: bool,
    f: Flow,
) -> Result<&'a RouteRow, Refusal>
    ensures { lent_ok result ≡ answered (lookup_rows default_listed routes.entry.rows.now (flow_of f)) }
{
    if let Some(answer) = ruled(table_lookup4(routes, UPPER, f)) {
        return answer;
    }
    if !default_listed {
        return Err(Refusal::Errno(layout::NET_UNREACHABLE));
    }
    if let Some(answer) = ruled(table_lookup4(routes, LOWER, f)) {
        return answer;
    }
    Err(Refusal::Errno(layout::NET_UNREACHABLE))
}

// The kind of the row that the set answers with; unicast where none does or it rejects, broadcast while the table isn't listed. Each
// row is fit, so its code is a kind's.
pub fn addr_type4(routes: Routes<'_>, listed: bool, set: Tables, ip: u32) -> Kind
    ensures { code_of result ≡ type_rows listed (set_of set) routes.entry.rows.now ip }
{
    if !listed {
        return Kind::Broadcast;
    }
    match table_lookup4(routes, set, Flow::to(ip)) {
        Some(r) if !kind::rejects(r[route::KIND]) => {
            Kind::try_from(r[route::KIND]).unwrap_or(Kind::Unicast)
        }
        _ => Kind::Unicast,
    }
}

// Whether an address is the loopback's, as a local route gives it.
pub fn local4(routes: Routes<'_>, local_listed: bool, ip: u32) -> bool
    ensures { result ≡ local_rows local_listed routes.entry.rows.now ip }
{
    local_listed && addr_type4(routes, local_listed, UPPER, ip) == Kind::Local
}
