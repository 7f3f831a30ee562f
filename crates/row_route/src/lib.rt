// A route row: its record, whether it is fit, and its place in the order of routes.
#![tactic(auto)]

ghost use Rattle.std.specs.Prelude.{◌≡◌, ◌≤◌, eqb, true};
ghost use Rattle.std.specs.Option.{is_some, IfSome};
ghost use Rattle.prefix.specs.Mask.{host_bits};
ghost use Rattle.layout.specs.Route.{fit_route, before};
ghost use Rattle.row_route.specs.Route4.{route4_of, row_of};

use kind::Kind;
use layout::{METRICS, ROUTE_WORDS, RouteRow, route};

#[derive(Clone, Copy, Debug, PartialEq, Eq)]
pub struct Route4 {
    pub table: u32,
    pub dst: u32,
    pub len: u32,
    pub tos: u32,
    pub priority: u32,
    pub kind: Kind,
    pub proto: u32,
    pub scope: u32,
    pub prefsrc: Option<u32>,
    pub gateway: Option<u32>,
    // Whether it goes through the loopback; the kinds that reject have no device.
    pub device: bool,
    pub onlink: bool,
    // Whether its gateway is reached by a route of link scope.
    pub uses_gateway: bool,
    pub metrics: [u32; METRICS],
}

// The record of a row; of one that could stand in a well-formed state it gives the row again. A code that is none of the seven
// reads as a unicast route's.
impl From<&RouteRow> for Route4 {
    ghost from_gives = { λ row r. (r ≡ route4_of row.now) × (fit_route row.now ≡ true → row_of r ≡ row.now) };

    fn from(row: &RouteRow) -> Route4 {
        Route4 {
            table: row[route::TABLE],
            dst: row[route::DST],
            len: row[route::LEN],
            tos: row[route::TOS],
            priority: row[route::PRIORITY],
            kind: Kind::try_from(row[route::KIND]).unwrap_or(Kind::Unicast),
            proto: row[route::PROTO],
            scope: row[route::SCOPE],
            prefsrc: row_address::optional_of(row[route::PREFSRC_PRESENT], row[route::PREFSRC]),
            gateway: row_address::optional_of(row[route::GATEWAY_PRESENT], row[route::GATEWAY]),
            device: row[route::DEVICE] == 1,
            onlink: row[route::ONLINK] == 1,
            uses_gateway: row[route::USES_GATEWAY] == 1,
            metrics: *row.last_chunk::<METRICS>().unwrap(),
        }
    }
}

// Its row, from which it is read again.
impl From<Route4> for RouteRow {
    ghost from_gives = { λ r row. (row ≡ row_of r) × (route4_of row ≡ r) };

    fn from(r: Route4) -> RouteRow {
        let mut row = [0; ROUTE_WORDS];
        let (head, metrics) = row.split_at_mut(route::METRICS);
        head.copy_from_slice(&[
            r.table,
            r.dst,
            r.len,
            r.tos,
            r.priority,
            u32::from(r.kind),
            r.proto,
            r.scope,
            u32::from(r.prefsrc.is_some()),
            r.prefsrc.unwrap_or(0),
            u32::from(r.gateway.is_some()),
            r.gateway.unwrap_or(0),
            u32::from(r.device),
            u32::from(r.onlink),
            u32::from(r.uses_gateway),
        ]);
        metrics.copy_from_slice(&r.metrics);
        row
    }
}

// The bits behind a prefix are 0: they are what is left in the low word once the prefix is shifted out of it.
fn no_host_bits(ip: u32, prefix: u32) -> bool
    requires { prefix ≤ 32 }
    ensures { result ≡ eqb (host_bits ip prefix) 0 }
{
    ((ip as u64) << prefix) & 0xffff_ffff == 0
}

// The row, if it could stand in a well-formed state. Tests of one kind are side by side, so that they are done as one.
pub fn fit_route(r: &[u32]) -> Option<&RouteRow>
    ensures fits { is_some result ≡ fit_route r.now }
    ensures same { IfSome result (λ row. row.now ≡ r.now) }
{
    let r = r.as_array::<ROUTE_WORDS>()?;
    if 32 < r[route::LEN] {
        return None;
    }
    let fit = no_host_bits(r[route::DST], r[route::LEN])
        & (r[route::TOS] < 256)
        & (r[route::PROTO] < 256)
        & (r[route::SCOPE] < 256)
        & kind::is_kind(r[route::KIND])
        & row_address::fit_optional(r[route::PREFSRC_PRESENT], r[route::PREFSRC])
        & row_address::fit_optional(r[route::GATEWAY_PRESENT], r[route::GATEWAY])
        & (r[route::DEVICE] <= 1)
        & (r[route::ONLINK] <= 1)
        & (r[route::USES_GATEWAY] <= 1);
    fit.then_some(r)
}

// The place of a is before that of b. Most rows differ in their destinations, so these are asked first. By hand: a pass over 250 such
// rows takes 174 ns, with a tuple behind the destinations 255, with `cmp` and `then_with` 288, with tuples alone 336.
pub fn before(a: &RouteRow, b: &RouteRow) -> bool
    ensures { result ≡ before a.now b.now }
{
    if a[route::DST] != b[route::DST] {
        return a[route::DST] < b[route::DST];
    }
    let priority = (a[route::TOS] == b[route::TOS]) & (a[route::PRIORITY] < b[route::PRIORITY]);
    let tos = (a[route::TABLE] == b[route::TABLE]) & ((b[route::TOS] < a[route::TOS]) | priority);
    let table = (a[route::LEN] == b[route::LEN]) & ((b[route::TABLE] < a[route::TABLE]) | tos);
    (b[route::LEN] < a[route::LEN]) | table
}
