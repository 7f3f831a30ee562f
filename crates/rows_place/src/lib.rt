// Where a requested address stands or goes among those that are there, and the row that it becomes.
#![tactic(auto)]

ghost use Rattle.std.specs.Prelude.{◌≡◌, true, ◌≤◌, length};
ghost use Rattle.std.specs.List.{position};
ghost use Rattle.lists.specs.Lists.{any};
ghost use Rattle.lists.specs.At.{insert_at};
ghost use Rattle.layout.specs.Address.{fit_address};
ghost use Rattle.layout.specs.Request.{fit_add_v4};
ghost use Rattle.definition.specs.Reference.Addresses.{same_address, same_subnet, yields, place4, reroutes};
ghost use Rattle.rows_place.specs.Rows.{fresh_row};

use layout::{AddV4, AddressRow, add_v4, address};
use life::Nanoseconds;
use rows::Addresses;

// Whether a new primary goes behind an address: a primary of its own scope or a narrower one (a larger number is narrower).
fn yields(new: &AddressRow, old: &AddressRow) -> bool
    ensures { result ≡ yields new.now old.now }
{
    !row_subnet::secondary(old) && new[address::SCOPE] <= old[address::SCOPE]
}

// The place where a new address goes: a primary behind the last that it yields to, a secondary at the end.
pub fn place4(addresses: Addresses<'_>, new: &AddressRow) -> usize
    ensures upper_bound { result ≤ length addresses.entry.rows.now }
    ensures value { place4 new.now addresses.entry.rows.now ≡ insert_at result new.now addresses.entry.rows.now }
{
    if row_subnet::secondary(new) {
        return addresses.rows.len();
    }
    addresses
        .rows
        .iter()
        .rposition(|old| yields(new, old))
        .map_or(0, |i| i + 1)
}

// The place of the requested address, of a request or another row: the one of the same local address and subnet.
#[tactic(auto, unfolding(definition::specs::Reference::Addresses::same_address))]
pub fn same_at(addresses: Addresses<'_>, q: &[u32]) -> Option<usize>
    requires { 14 ≤ length q.now }
    ensures { result ≡ position (same_address q.now) addresses.entry.rows.now }
{
    addresses.rows.iter().position(|old| {
        old[address::LOCAL] == q[address::LOCAL] && row_subnet::same_subnet(old, q)
    })
}

// Whether some address has the requested subnet.
fn in_subnet(addresses: Addresses<'_>, q: &AddV4) -> bool
    ensures { result ≡ any (λ old. same_subnet old q.now) addresses.entry.rows.now }
{
    addresses
        .rows
        .iter()
        .any(|old| row_subnet::same_subnet(old, q))
}

// The row that a request becomes: a secondary where an address of its subnet is there.
// That the request is fit is a clause: it is read by place and handed on as its array, so a struct would be taken apart in each.
pub fn fresh(addresses: Addresses<'_>, q: &AddV4, clock: Nanoseconds) -> AddressRow
    requires { fit_add_v4 q.now ≡ true }
    ensures fits { fit_address result ≡ true }
    ensures value { result ≡ fresh_row addresses.entry.rows.now q.now clock.0 }
{
    let row = row_update::asked(q, clock);
    if in_subnet(addresses, q) {
        return row_update::as_secondary(&row);
    }
    row
}

// Whether a request moves an address's prefix route: to another priority, while the loopback is up.
pub fn reroutes(q: &AddV4, old: &AddressRow) -> bool
    ensures { result ≡ reroutes q.now old.now }
{
    q[add_v4::UP] == 1
        && old[address::PRIORITY] != q[address::PRIORITY]
        && !row_subnet::secondary(old)
        && !row_subnet::no_prefix_route(old)
        && row_subnet::own_network(old)
}
