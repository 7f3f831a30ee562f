// The source choice over rows of addresses and routes.
#![tactic(auto)]

ghost use Rattle.std.specs.Prelude.{◌≡◌, ◌&&◌, map};
ghost use Rattle.std.specs.List.{find};
ghost use Rattle.std.specs.Option.{option_map};
ghost use Rattle.lists.specs.Library.{own};
ghost use Rattle.definition.specs.Reference.Source.{eligible, reaches, select4, source4};
ghost use Rattle.rows_source.specs.Source.{source_rows};

use layout::{RouteRow, route};
use row_subnet::Address;
use rows::{Addresses, Routes};
use rows_lookup::Flow;

// 127.0.0.1
const LOOPBACK: u32 = 0x7f000001;

// A primary of the asked scope or a wider one (a smaller number is wider); nowhere counts as host.
#[tactic(auto, unfolding(definition::specs::Reference::Source::eligible))]
fn eligible<A: Address>(a: &A, scope: u32) -> bool
    ensures { result ≡ eligible scope (A.words a.now) }
{
    !row_subnet::secondary(a) && a.scope().min(layout::SCOPE_HOST) <= scope
}

// In the destination's subnet, if there is one.
fn reaches<A: Address>(a: &A, dst: Option<u32>) -> bool
    ensures { result ≡ reaches (own dst) (A.words a.now) }
{
    dst.is_none_or(|ip| row_subnet::covers(a, ip))
}

// The first address that is eligible and in the destination's subnet.
// Destination and scope are no struct: each is asked by itself, and the second search has the scope alone.
fn first<A: Address>(addresses: &[A], dst: Option<u32>, scope: u32) -> Option<&A>
    ensures { option_map (λ a. a.now) result ≡ find (λ a. eligible scope (A.words a) && reaches (own dst) (A.words a)) addresses.now }
{
    addresses
        .iter()
        .find(|a| eligible(*a, scope) && reaches(*a, dst))
}

// The first address that is eligible and in the destination's subnet, else the first that is eligible.
pub fn select4<A: Address>(addresses: &[A], dst: Option<u32>, scope: u32) -> Option<u32>
    ensures { own result ≡ select4 (map A.words addresses.now) (own dst) scope }
{
    first(addresses, dst, scope)
        .or_else(|| first(addresses, None, scope))
        .map(|a| a.local())
}

// The source for a route's row: its preferred source; else for a local one the destination itself, for another the choice by
// its gateway and scope.
#[tactic(auto, unfolding(definition::specs::Reference::Source::source4))]
pub fn source4(addresses: Addresses<'_>, row: &RouteRow, ip: u32) -> Option<u32>
    ensures { own result ≡ source4 addresses.entry.rows.now row.now ip }
{
    if row[route::PREFSRC_PRESENT] == 1 {
        return Some(row[route::PREFSRC]);
    }
    if row[route::KIND] == layout::KIND_LOCAL {
        return Some(ip);
    }
    let gateway = row_address::optional_of(row[route::GATEWAY_PRESENT], row[route::GATEWAY]);
    select4(addresses.rows, gateway, row[route::SCOPE])
}

// The source for a destination by the addresses, the routes and whether 253 is listed: 127.0.0.1 where there is no route or no address.
pub fn source(addresses: Addresses<'_>, routes: Routes<'_>, default_listed: bool, ip: u32) -> u32
    ensures { result ≡ source_rows default_listed addresses.entry.rows.now routes.entry.rows.now ip }
{
    match rows_lookup::lookup4_in(routes, default_listed, Flow::to(ip)) {
        Ok(row) => source4(addresses, row, ip).unwrap_or(LOOPBACK),
        Err(_) => LOOPBACK,
    }
}
