// The preferred source of a route that a request asks for.
#![tactic(auto)]

ghost use Rattle.std.specs.Prelude.{◌≡◌, ℕ, ◌≤◌, length};
ghost use Rattle.kind.specs.Kind.{code_of};
ghost use Rattle.definition.specs.Reference.Lookup.{type_set};
ghost use Rattle.rows_lookup.specs.Flow.{set_of};
ghost use Rattle.rows_lookup.specs.AddrType.{type_rows};
ghost use Rattle.request_prefsrc.specs.Rows.{prefsrc_table, prefsrc_rows};

use kind::Kind;
use layout::route;
use rows::Routes;
use rows_lookup::Tables;

// The tables that are read with a named one: 255 and 254 together, any other alone.
#[tactic(auto, unfolding(definition::specs::Reference::Lookup::type_set))]
pub fn type_set(t: u32) -> Tables
    ensures { (u : ℕ) → set_of result u ≡ type_set t u }
{
    if (t == layout::TABLE_LOCAL) | (t == layout::TABLE_MAIN) {
        return rows_lookup::UPPER;
    }
    Tables::alone(t)
}

// What an address is to a table.
pub fn addr_type(routes: Routes<'_>, listed: bool, t: u32, ip: u32) -> Kind
    ensures { code_of result ≡ type_rows listed (type_set t) routes.entry.rows.now ip }
{
    rows_lookup::addr_type4(routes, listed, type_set(t), ip)
}

// The table that a preferred source may be local in, besides 255. By its number: a request may name any.
pub fn prefsrc_table(t: u32) -> u32
    ensures { result ≡ prefsrc_table t }
{
    if t == layout::TABLE_MAIN {
        return layout::TABLE_LOCAL;
    }
    t
}

// A local route's own destination, or an address that is local in the route's table or in 255. A slice, as `table_named` takes it.
#[tactic(auto, unfolding(crate::specs::Rows::prefsrc_rows))]
pub fn valid_prefsrc4(routes: Routes<'_>, q: &[u32], own_listed: bool, local_listed: bool) -> bool
    requires { 12 ≤ length q.now }
    ensures { result ≡ prefsrc_rows q.now own_listed local_listed routes.entry.rows.now }
{
    let own = prefsrc_table(request_route::table_named(q));
    ((q[route::KIND] == layout::KIND_LOCAL)
        & (q[route::DST] != 0)
        & (q[route::PREFSRC] == q[route::DST]))
        || addr_type(routes, own_listed, own, q[route::PREFSRC]) == Kind::Local
        || addr_type(routes, local_listed, layout::TABLE_LOCAL, q[route::PREFSRC]) == Kind::Local
}
