// Routes retained in place: those that go leave zeros behind the others.
#![tactic(auto)]

ghost use Rattle.std.specs.Prelude.{◌≡◌, Bool, ◌+◌, ◌-◌, ◌*◌, ◌≤◌, ◌<◌, length, set};
ghost use Rattle.lists.specs.Lists.{Row, put, span, keep, zeros};
ghost use Rattle.definition.specs.State.{with_routes};
ghost use Rattle.definition.specs.Reference.Addresses.{down};
ghost use Rattle.definition.specs.Reference.Removal.{deviceless};
ghost use Rattle.state.specs.Stored.{Becomes};
ghost use Rattle.state_retain.specs.Retain.{Decides, remains};
ghost use Rattle.definition.specs.Words.{routes_at};

use layout::{ROUTE_COUNT, ROUTE_WORDS, ROUTES_AT, RouteRow, route};
use state::StoredMut;

// Whether a route remains: all do that are not through the device, and with host those of host scope too.
#[tactic(auto, unfolding(crate::specs::Retain::remains))]
fn remains(r: &RouteRow, host: bool) -> bool
    ensures { result ≡ remains host r.now }
{
    r[route::DEVICE] != 1 || host && r[route::SCOPE] == layout::SCOPE_HOST
}

// Row i of the routes, whether or not the count reaches it.
fn route_row(s: &[u32], i: usize) -> &RouteRow
    requires { routes_at + 32 * (i + 1) ≤ length s.now }
    ensures { result.now ≡ span (routes_at + 32 * i) 32 s.now }
{
    let (rows, _) = s[ROUTES_AT..].as_chunks::<ROUTE_WORDS>();
    &rows[i]
}

// Row i becomes row j of those that remain: how many they are with it.
fn settle(s: &mut [u32], i: usize, j: usize) -> usize
    requires { (j ≤ i) × (routes_at + 32 * (i + 1) ≤ length s.old) }
    ensures value { result ≡ j + 1 }
    ensures s_after { s.new ≡ put (routes_at + 32 * j) (span (routes_at + 32 * i) 32 s.old) s.old }
{
    if i == j {
        return j + 1;
    }
    let row = *route_row(s, i);
    words::store(s, ROUTES_AT + ROUTE_WORDS * j, &row);
    j + 1
}

// Of n rows j remain: zeros for the others, and the count. By counts, since the words lie where they are lent.
fn close(s: &mut [u32], n: usize, j: usize)
    requires { (j ≤ n) × (n ≤ 256) × (routes_at + 32 * n ≤ length s.old) }
    ensures { s.new ≡ set (put (routes_at + 32 * j) (zeros (32 * (n - j))) s.old) 1 j }
{
    words::clear(s, ROUTES_AT + ROUTE_WORDS * j, ROUTE_WORDS * (n - j));
    s[ROUTE_COUNT] = j as u32;
}

// The routes that pass stay, in their order; the words behind them become zeros. The rows move under the loop, so it goes by places.
pub fn retain<F: Fn(&RouteRow) -> bool>(s: &mut StoredMut<'_>, stays: F)
    requires { F.IsAlwaysCallable stays }
    ensures { (p : Row → Bool) → Decides F.Fn stays p → Becomes (λ st. with_routes (keep p st.routes) st) s.old s.new }
{
    let n = s.stored().route_count();
    let words = &mut *s.words;
    let mut j = 0usize;
    for i in 0..n {
        if stays(route_row(words, i)) {
            j = settle(words, i, j);
        }
    }
    close(words, n, j);
}

// The device goes down: its routes go, but for those of host scope.
pub fn down(s: &mut StoredMut<'_>)
    ensures { Becomes (λ st. (down st).state) s.old s.new }
{
    retain(s, |r| remains(r, true));
}

// All of the device's routes go.
pub fn deviceless(s: &mut StoredMut<'_>)
    ensures { Becomes deviceless s.old s.new }
{
    retain(s, |r| remains(r, false));
}
