// Whether some address wants a route, without a list of the wanted ones: an address is asked directly.
// The tests are relations of two rows, so they are methods of neither.
#![tactic(auto)]

ghost use Rattle.std.specs.Prelude.{◌≡◌};
ghost use Rattle.lists.specs.Lists.{any};
ghost use Rattle.layout.specs.Route.{dst, len};
ghost use Rattle.definition.specs.Reference.Removal.{wanted, dependent_on};
ghost use Rattle.rows_wanted.specs.Wants.{wants_local, wants_broadcast, wants_row};

use layout::{AddressRow, RouteRow, address, route};
use rows::{Addresses, Routes};

// Whether a wants a local route: to its own address or to its network. Most addresses have another length, so that is asked first.
fn wants_local(a: &AddressRow, r: &RouteRow) -> bool
    ensures { result ≡ wants_local a.now (dst r.now) (len r.now) }
{
    let to = r[route::DST];
    let len = r[route::LEN];
    if to == a[address::LOCAL] && len == 32 {
        return true;
    }
    len == a[address::PREFIX]
        && row_subnet::has_prefix_route(a)
        && to == prefix::network4(a[address::ADDRESS], len)
}

// Whether a wants a broadcast route: to the address that it names or to its subnet's last.
fn wants_broadcast(a: &AddressRow, r: &RouteRow) -> bool
    ensures { result ≡ wants_broadcast a.now (dst r.now) (len r.now) }
{
    let to = r[route::DST];
    r[route::LEN] == 32
        && (row_subnet::names_broadcast(a) && to == a[address::BROADCAST]
            || row_subnet::has_broadcast_routes(a)
                && to == prefix::broadcast4(a[address::ADDRESS], a[address::PREFIX]))
}

// Whether a wants the route while the loopback is up. A route of another kind is nobody's. By the kind's number, since each address is
// asked for each route: by `Kind::try_from` 250 routes over 62 addresses took 23.7 µs in place of 21.0, once for each route 22.4.
pub fn wants(a: &AddressRow, r: &RouteRow) -> bool
    ensures { result ≡ wants_row r.now a.now }
{
    match r[route::KIND] {
        layout::KIND_LOCAL => wants_local(a, r),
        layout::KIND_BROADCAST => wants_broadcast(a, r),
        _ => false,
    }
}

// Whether some address wants the route r.
pub fn wanted(addresses: Addresses<'_>, r: &RouteRow) -> bool
    ensures { result ≡ wanted addresses.entry.rows.now r.now }
{
    addresses.rows.iter().any(|a| wants(a, r))
}

// Whether a row of table 254 has ip as its preferred source.
pub fn dependents_from(r: &RouteRow, ip: u32) -> bool
    ensures { result ≡ dependent_on ip r.now }
{
    r[route::TABLE] == layout::TABLE_MAIN
        && r[route::PREFSRC_PRESENT] == 1
        && r[route::PREFSRC] == ip
}

// Whether such a row is there.
pub fn dependents(routes: Routes<'_>, ip: u32) -> bool
    ensures { result ≡ any (dependent_on ip) routes.entry.rows.now }
{
    routes.rows.iter().any(|r| dependents_from(r, ip))
}
