// Whether words are a well-formed state. Every call asks it: each row in use is looked at, a route beside the next one, and
// where that has no later place, beside those of its own place behind it; the words not in use are scanned; and the rows of each table
// are counted.
#![tactic(auto)]

ghost use Rattle.std.specs.Prelude.{◌≡◌, true, not, ◌&&◌, ◌∷◌, ◌+◌, ◌*◌, ◌≤◌, ◌<◌, eqb, length, drop};
ghost use Rattle.lists.specs.Lists.{Row, all, among, eq_row};
ghost use Rattle.layout.specs.Address.{fit_address};
ghost use Rattle.layout.specs.Route.{fit_route};
ghost use Rattle.definition.specs.Words.{state_size, base, counts_true, formed, ordered, distinct, none_twice, unused_zero, well_formed, address_count, route_count, table_count, base_size};
ghost use Rattle.definition.specs.Step.{checks};
ghost use Rattle.refusal.specs.Refusal.{Refuses};
ghost use Rattle.state_well_formed.specs.Place.{in_place};
ghost use Rattle.state_well_formed.specs.Twice.{marked};

use layout::{
    ADDRESS_COUNT, ADDRESS_LIMIT, ADDRESS_WORDS, ADDRESSES_AT, AddressRow, BASE_WORDS, ROUTE_COUNT,
    ROUTE_LIMIT, ROUTE_WORDS, ROUTES_AT, ROW_COUNTS_AT, RouteRow, STATE_WORDS, TABLE_COUNT,
    TABLE_LIMIT, TABLES_AT,
};
use refusal::Refusal;

fn addresses_form(addresses: &[AddressRow]) -> bool
    ensures { result ≡ all fit_address addresses.now }
{
    addresses
        .iter()
        .all(|a| row_address::fit_address(a).is_some())
}

// A row is none of those behind it, where they are in order. Only those of its own place are compared: the others have a later
// place.
fn apart(row: &RouteRow, behind: &[RouteRow]) -> bool
    ensures { ordered behind.now ≡ true → result ≡ all (λ (b : Row). not (eq_row row.now b)) behind.now }
{
    for r in behind {
        if row_route::before(row, r) {
            return true;
        }
        if row == r {
            return false;
        }
    }
    true
}

// Row i, which is not the last, is in its place: the next one's is not before it, and it is none of those behind it.
fn in_place(routes: &[RouteRow], i: usize) -> bool
    requires { i + 1 < length routes.now }
    ensures { in_place (drop i routes.now) ≡ result && in_place (drop (i + 1) routes.now) }
{
    if row_route::before(&routes[i + 1], &routes[i]) {
        return false;
    }
    apart(&routes[i], &routes[i + 1..])
}

// The first row from a place on that is the last one, or whose place is not before the next one's. Those passed over are in their
// places. A loop of its own, so that all it needs is in registers. A `while`, and a place as the answer: with a `for` over the
// places, or an Option of the place, the whole check of 250 routes takes a tenth to a fifth longer.
fn rising(routes: &[RouteRow], from: usize) -> usize
    requires { from ≤ length routes.now }
    ensures { (result ≤ length routes.now) × (from ≤ result) × (in_place (drop from routes.now) ≡ in_place (drop result routes.now)) }
{
    let mut i = from;
    while i + 1 < routes.len() {
        if !row_route::before(&routes[i], &routes[i + 1]) {
            return i;
        }
        i += 1;
    }
    i
}

// The rows are in order, and no two are the same. The place jumps over the rows that rise, so the loop is no `for`; with one over
// all places, which asks both, the check takes a fifth longer.
fn all_in_place(routes: &[RouteRow]) -> bool
    ensures { result ≡ in_place routes.now }
{
    let mut i = rising(routes, 0);
    while i + 1 < routes.len() {
        if !in_place(routes, i) {
            return false;
        }
        i = rising(routes, i + 1);
    }
    true
}

fn routes_form(routes: &[RouteRow]) -> bool
    ensures { result ≡ all fit_route routes.now && ordered routes.now && distinct routes.now }
{
    routes.iter().all(|r| row_route::fit_route(r).is_some()) & all_in_place(routes)
}

// A number is one of those behind it, each of which has set the bit that its low six bits name: where its own is not set it is
// none of them.
fn again(n: u32, behind: &[u32], seen: u64) -> bool
    requires { marked seen behind.now ≡ true }
    ensures { result ≡ among n behind.now }
{
    if (seen >> (n & 63)) & 1 == 0 {
        return false;
    }
    behind.contains(&n)
}

fn none_twice(l: &[u32]) -> bool
    ensures { result ≡ none_twice l.now }
{
    let mut seen = 0u64;
    for i in (0..l.len()).rev() {
        if again(l[i], &l[i + 1..], seen) {
            return false;
        }
        seen |= 1u64 << (l[i] & 63);
    }
    true
}

// The words behind those in use are 0.
// Of words of that length and no array, as `well_formed`: a public function asks for no narrower type than it did.
fn unused_zero(s: &[u32]) -> bool
    requires { (length s.now ≡ base_size) × (address_count s.now ≤ 64) × (route_count s.now ≤ 256) × (table_count s.now ≤ 32) }
    ensures { result ≡ unused_zero s.now }
{
    let a = ADDRESSES_AT + ADDRESS_WORDS * (s[ADDRESS_COUNT] as usize);
    let r = ROUTES_AT + ROUTE_WORDS * (s[ROUTE_COUNT] as usize);
    let t = TABLES_AT + s[TABLE_COUNT] as usize;
    words::all_zero(&s[a..ROUTES_AT]) & words::all_zero(&s[r..TABLES_AT]) & words::all_zero(&s[t..])
}

// The words of the lists.
fn well_formed(s: &[u32]) -> bool
    requires { length s.now ≡ base_size }
    ensures { result ≡ well_formed s.now }
{
    let a = s[ADDRESS_COUNT] as usize;
    let r = s[ROUTE_COUNT] as usize;
    let t = s[TABLE_COUNT] as usize;
    if ADDRESS_LIMIT < a {
        return false;
    }
    if ROUTE_LIMIT < r {
        return false;
    }
    if TABLE_LIMIT < t {
        return false;
    }
    let behind_a = ADDRESSES_AT + ADDRESS_WORDS * a;
    let behind_r = ROUTES_AT + ROUTE_WORDS * r;
    let (addresses, _) = s[ADDRESSES_AT..behind_a].as_chunks::<ADDRESS_WORDS>();
    let (routes, _) = s[ROUTES_AT..behind_r].as_chunks::<ROUTE_WORDS>();
    addresses_form(addresses)
        & routes_form(routes)
        & none_twice(&s[TABLES_AT..TABLES_AT + t])
        & unused_zero(s)
}

// The row counts behind them.
fn counts_true(s: &[u32]) -> bool
    requires { (length s.now ≡ state_size) × (well_formed (base s.now) ≡ true) }
    ensures { result ≡ counts_true s.now }
{
    let counts = state_tally::row_counts(&s[..BASE_WORDS]);
    s[ROW_COUNTS_AT..] == counts[..]
}

// Of words that are as many as a state's.
pub fn formed(s: &[u32]) -> bool
    requires { length s.now ≡ state_size }
    ensures { result ≡ formed s.now }
{
    well_formed(&s[..BASE_WORDS]) && counts_true(s)
}

// What any words get: WrongLength where they are not as many as a state's, Malformed where they are not well-formed.
pub fn check(s: &[u32]) -> Result<(), Refusal>
    ensures { Refuses result (checks (eqb (length s.now) state_size) (formed s.now) 0) }
{
    if s.len() != STATE_WORDS {
        return Err(Refusal::WrongLength);
    }
    refusal::unless(formed(s), Refusal::Malformed)
}
