// The rows of the state's lists, in words that hold a state: three counts, the addresses from 3 on, 20 words each, the
// routes from 1283 on, 32 words each, the tables from 9475 on.
#![tactic(auto)]

ghost use Rattle.std.specs.Prelude.{◌≡◌, true, ◌+◌, ◌*◌, ◌≤◌, ◌<◌, length, set};
ghost use Rattle.lists.specs.At.{insert_at, remove_at};
ghost use Rattle.layout.specs.Address.{fit_address};
ghost use Rattle.layout.specs.Route.{fit_route};
ghost use Rattle.definition.specs.State.{State, with_addresses, with_routes};
ghost use Rattle.definition.specs.Words.{address_count, route_count, base_size};
ghost use Rattle.state.specs.Represents.{Represents};
ghost use Rattle.state.specs.Stored.{Becomes};

mod held;
mod stored;

use layout::{
    ADDRESS_COUNT, ADDRESS_WORDS, ADDRESSES_AT, AddressRow, ROUTE_COUNT, ROUTE_WORDS, ROUTES_AT,
    RouteRow,
};
use rows::{Addresses, Routes};
pub use stored::{Stored, StoredMut};

// This and `route_count` take words of that length and no array: a public function asks for no narrower type than it did.
pub fn address_count(s: &[u32]) -> usize
    requires { length s.now ≡ base_size }
    ensures { result ≡ address_count s.now }
{
    s[ADDRESS_COUNT] as usize
}

pub fn route_count(s: &[u32]) -> usize
    requires { length s.now ≡ base_size }
    ensures { result ≡ route_count s.now }
{
    s[ROUTE_COUNT] as usize
}

impl<'a> Stored<'a> {
    pub fn address_count(self) -> usize
        ensures { result ≡ address_count self.entry.words.now }
    {
        address_count(self.words)
    }

    pub fn route_count(self) -> usize
        ensures { result ≡ route_count self.entry.words.now }
    {
        route_count(self.words)
    }

    // The rows of the lists. One function over `Held` would be no plainer: for its two lines it would need laws that tie `WIDTH` to the
    // arrays' length and one trait's `fits` to the other's.
    pub fn addresses(self) -> Addresses<'a>
        ensures rows { (st : State) → Represents self.entry.words.now st → result.rows.now ≡ st.addresses }
        ensures count { length result.rows.now ≡ address_count self.entry.words.now }
    {
        let end = ADDRESSES_AT + ADDRESS_WORDS * self.address_count();
        rows::rows_of::<ADDRESS_WORDS>(&self.words[ADDRESSES_AT..end])
    }

    pub fn routes(self) -> Routes<'a>
        ensures rows { (st : State) → Represents self.entry.words.now st → result.rows.now ≡ st.routes }
        ensures count { length result.rows.now ≡ route_count self.entry.words.now }
    {
        let end = ROUTES_AT + ROUTE_WORDS * self.route_count();
        rows::rows_of::<ROUTE_WORDS>(&self.words[ROUTES_AT..end])
    }
}

impl StoredMut<'_> {
    // The same words, to read.
    pub fn stored(&self) -> Stored<'_>
        ensures { result.words.now ≡ self.now.words.now }
    {
        Stored { words: self.words }
    }

    // A row before row i.
    // A place and a fit row are clauses, here and below: the list changes under a place, and a struct around a row would be made at each
    // call for this one.
    pub fn insert_address(&mut self, i: usize, row: &AddressRow)
        requires i_bound { (i ≤ address_count self.old.words.now) × (address_count self.old.words.now < 64) }
        requires row_value { fit_address row.now ≡ true }
        ensures { Becomes (λ st. with_addresses (insert_at i row.now st.addresses) st) self.old self.new }
    {
        held::insert(self, i, row);
    }

    // Row i goes.
    pub fn remove_address(&mut self, i: usize)
        requires i_bound { i < address_count self.old.words.now }
        ensures { Becomes (λ st. with_addresses (remove_at i st.addresses) st) self.old self.new }
    {
        held::remove::<AddressRow>(self, i);
    }

    // Another row in place of row i.
    pub fn replace_address(&mut self, i: usize, row: &AddressRow)
        requires i_bound { i < address_count self.old.words.now }
        requires row_value { fit_address row.now ≡ true }
        ensures { Becomes (λ st. with_addresses (set st.addresses i row.now) st) self.old self.new }
    {
        held::replace(self, i, row);
    }

    pub fn insert_route(&mut self, i: usize, row: &RouteRow)
        requires i_bound { (i ≤ route_count self.old.words.now) × (route_count self.old.words.now < 256) }
        requires row_value { fit_route row.now ≡ true }
        ensures { Becomes (λ st. with_routes (insert_at i row.now st.routes) st) self.old self.new }
    {
        held::insert::<RouteRow>(self, i, row);
    }

    pub fn remove_route(&mut self, i: usize)
        requires i_bound { i < route_count self.old.words.now }
        ensures { Becomes (λ st. with_routes (remove_at i st.routes) st) self.old self.new }
    {
        held::remove::<RouteRow>(self, i);
    }

    pub fn replace_route(&mut self, i: usize, row: &RouteRow)
        requires i_bound { i < route_count self.old.words.now }
        requires row_value { fit_route row.now ≡ true }
        ensures { Becomes (λ st. with_routes (set st.routes i row.now) st) self.old self.new }
    {
        held::replace::<RouteRow>(self, i, row);
    }
}
