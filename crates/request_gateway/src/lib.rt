// How a route that a request asks for is reached: its device and its gateway.
// Which tables are listed goes beside the routes, for the reason that `rows_lookup::lookup4_in` gives.
#![tactic(auto)]

ghost use Rattle.std.specs.Prelude.{◌≡◌, ◌<◌, max};
ghost use Rattle.lists.specs.Library.{lent, lent_ok};
ghost use Rattle.layout.specs.Route.{scope};
ghost use Rattle.definition.specs.Reference.Lookup.{route, answer, together};
ghost use Rattle.definition.specs.Reference.Routes.{to_gateway, reached_by};
ghost use Rattle.rows_lookup.specs.Flow.{flow_of};
ghost use Rattle.rows_lookup.specs.Answer.{answered};
ghost use Rattle.request_gateway.specs.Rows.{reached, onlink_rows, gateway_rows, gateway4_rows, reach_rows};

use kind::Kind;
use layout::{AddRoute4, RouteRow, add_route4, route};
use refusal::{Refusal, unless};
use rows::Routes;
use rows_lookup::Flow;

// On link it must be unicast to the local table, while up, for a route wider than link scope.
#[tactic(auto, unfolding(crate::specs::Rows::onlink_rows))]
fn onlink_check(routes: Routes<'_>, q: &AddRoute4, local_listed: bool) -> Result<bool, Refusal>
    ensures { result ≡ reached (onlink_rows q.now local_listed routes.entry.rows.now) }
{
    unless(
        q[route::SCOPE] < layout::SCOPE_LINK,
        Refusal::Errno(layout::INVALID),
    )?;
    unless(q[add_route4::OIF] == 1, Refusal::Errno(layout::NO_DEVICE))?;
    unless(q[add_route4::UP] != 0, Refusal::Errno(layout::NET_DOWN))?;
    let kind = request_prefsrc::addr_type(
        routes,
        local_listed,
        layout::TABLE_LOCAL,
        q[route::GATEWAY],
    );
    unless(kind == Kind::Unicast, Refusal::Errno(layout::INVALID))?;
    Ok(true)
}

// What the named table's own set answers with; a private table is not read.
// By the table's number: a request may name any.
#[tactic(auto, using(crate::specs::Rows::own_upper, crate::specs::Rows::own_lower, crate::specs::Rows::own_none))]
fn own_route<'a>(routes: Routes<'a>, t: u32, f: Flow) -> Option<&'a RouteRow>
    ensures { lent result ≡ answer (together t) (flow_of f) routes.entry.rows.now }
{
    if (t == layout::TABLE_LOCAL) | (t == layout::TABLE_MAIN) {
        return rows_lookup::table_lookup4(routes, rows_lookup::UPPER, f);
    }
    if t == layout::TABLE_DEFAULT {
        return rows_lookup::table_lookup4(routes, rows_lookup::LOWER, f);
    }
    None
}

// The route's own set of tables, where that has an answer that doesn't reject, else a lookup. The flow is to the gateway: one scope
// narrower than the route's, link scope at least. Its sum asks for a bound, here and in `gateway4`; `fit_add_route4` would ask more.
#[tactic(auto, unfolding(crate::specs::Rows::gateway_rows))]
fn gateway_route<'a>(
    routes: Routes<'a>,
    q: &AddRoute4,
    default_listed: bool,
) -> Result<&'a RouteRow, Refusal>
    requires { scope q.now < 256 }
    ensures { lent_ok result ≡ answered (gateway_rows q.now default_listed routes.entry.rows.now) }
{
    let f = Flow {
        scope: (q[route::SCOPE] + 1).max(layout::SCOPE_LINK),
        oif: q[add_route4::OIF],
        ..Flow::to(q[route::GATEWAY])
    };
    match own_route(routes, request_route::table_named(q), f) {
        Some(r) if !kind::rejects(r[route::KIND]) => Ok(r),
        _ => rows_lookup::lookup4_in(routes, default_listed, f),
    }
}

// By a unicast or local route, while up.
fn reached_by(r: &RouteRow, q: &AddRoute4) -> Result<bool, Refusal>
    ensures { result ≡ reached (reached_by q.now (route r.now)) }
{
    let kind = r[route::KIND];
    unless(
        (kind == layout::KIND_UNICAST) | (kind == layout::KIND_LOCAL),
        Refusal::Errno(layout::INVALID),
    )?;
    unless(q[add_route4::UP] != 0, Refusal::Errno(layout::NET_DOWN))?;
    Ok(r[route::SCOPE] == layout::SCOPE_LINK)
}

// Whether a route of link scope reaches the gateway.
#[tactic(auto, unfolding(crate::specs::Rows::gateway4_rows))]
pub fn gateway4(
    routes: Routes<'_>,
    q: &AddRoute4,
    local_listed: bool,
    default_listed: bool,
) -> Result<bool, Refusal>
    requires { scope q.now < 256 }
    ensures { result ≡ reached (gateway4_rows q.now local_listed default_listed routes.entry.rows.now) }
{
    if request_route::onlink_flag(q) {
        return onlink_check(routes, q, local_listed);
    }
    reached_by(gateway_route(routes, q, default_listed)?, q)
}

// Device and gateway.
#[tactic(auto, unfolding(crate::specs::Rows::reach_rows))]
pub fn reach_check(
    routes: Routes<'_>,
    q: &AddRoute4,
    local_listed: bool,
    default_listed: bool,
) -> Result<bool, Refusal>
    ensures { result ≡ reached (reach_rows q.now local_listed default_listed routes.entry.rows.now) }
{
    let invalid = Refusal::Errno(layout::INVALID);
    let no_device = Refusal::Errno(layout::NO_DEVICE);
    let gatewayed = q[route::GATEWAY_PRESENT] == 1;
    let device = q[add_route4::OIF];
    if kind::rejects(q[route::KIND]) {
        unless(!gatewayed & (device == 0), invalid)?;
        return Ok(false);
    }
    unless(q[route::SCOPE] <= layout::SCOPE_HOST, invalid)?;
    if q[route::SCOPE] == layout::SCOPE_HOST {
        unless(!gatewayed, invalid)?;
        unless(device == 1, no_device)?;
        return Ok(false);
    }
    if gatewayed {
        return gateway4(routes, q, local_listed, default_listed);
    }
    unless(!request_route::onlink_flag(q), invalid)?;
    unless(device == 1, no_device)?;
    unless(q[add_route4::UP] != 0, Refusal::Errno(layout::NET_DOWN))?;
    Ok(false)
}
