// Rows put in, taken out and replaced, in whichever of a state's lists they stand.
ghost use Rattle.std.specs.Prelude.{◌≡◌, ℕ, Bool, true, ◌+◌, ◌*◌, ◌≤◌, ◌<◌, List, slice_index, set};
ghost use Rattle.lists.specs.Lists.{Row};
ghost use Rattle.lists.specs.At.{insert_at, remove_at};
ghost use Rattle.layout.specs.Address.{fit_address};
ghost use Rattle.layout.specs.Route.{fit_route};
ghost use Rattle.definition.specs.State.{State, with_addresses, with_routes};
ghost use Rattle.definition.specs.Words.{addresses_at, routes_at};
ghost use Rattle.state.specs.Stored.{Becomes};
ghost use Rattle.state.specs.Held.{Held, addresses_held, routes_held};

use crate::stored::StoredMut;
use layout::{ADDRESS_COUNT, ADDRESS_WORDS, ADDRESSES_AT, ROUTE_COUNT, ROUTE_WORDS, ROUTES_AT};

// A row of which a state holds a list.
// `WIDTH` and `words` stand here though an array has both: over `[u32; N]` a clause would write `⟦<[u32; N] as Held>⟧.limit` where it
// writes `R.limit`.
pub(crate) trait Held {
    // Where the list begins, where its count stands, and the words of a row.
    const AT: usize;

    const COUNT: usize;

    const WIDTH: usize;

    ghost AT: { ℕ };

    ghost COUNT: { ℕ };

    ghost WIDTH: { ℕ };

    ghost limit: { ℕ };

    ghost fits: { Row → Bool };

    ghost rows: { State → List Row };

    ghost with: { List Row → State → State };

    ghost words: { Self → Row };

    fn words(&self) -> &[u32]
        ensures { result.now ≡ words self.now };

    ghost held: { Held AT COUNT WIDTH limit fits rows with };
}

impl Held for [u32; ADDRESS_WORDS] {
    const AT: usize = ADDRESSES_AT;

    const COUNT: usize = ADDRESS_COUNT;

    const WIDTH: usize = ADDRESS_WORDS;

    ghost AT = { addresses_at };

    ghost COUNT = { 0 };

    ghost WIDTH = { 20 };

    ghost limit = { 64 };

    ghost fits = { fit_address };

    ghost rows = { λ st. st.addresses };

    ghost with = { with_addresses };

    ghost words = { λ row. row };

    fn words(&self) -> &[u32] {
        self
    }

    ghost held = { addresses_held };
}

impl Held for [u32; ROUTE_WORDS] {
    const AT: usize = ROUTES_AT;

    const COUNT: usize = ROUTE_COUNT;

    const WIDTH: usize = ROUTE_WORDS;

    ghost AT = { routes_at };

    ghost COUNT = { 1 };

    ghost WIDTH = { 32 };

    ghost limit = { 256 };

    ghost fits = { fit_route };

    ghost rows = { λ st. st.routes };

    ghost with = { with_routes };

    ghost words = { λ row. row };

    fn words(&self) -> &[u32] {
        self
    }

    ghost held = { routes_held };
}

// A row before row i.
pub(crate) fn insert<R: Held>(s: &mut StoredMut<'_>, i: usize, row: &R)
    requires i_bound { (i ≤ slice_index s.old.words.now R.COUNT) × (slice_index s.old.words.now R.COUNT < R.limit) }
    requires row_value { R.fits (R.words row.now) ≡ true }
    ensures { Becomes (λ st. R.with (insert_at i (R.words row.now) (R.rows st)) st) s.old s.new }
{
    let words = &mut *s.words;
    let n = words[R::COUNT];
    words::insert(
        words,
        R::AT + R::WIDTH * i,
        R::WIDTH * (n as usize - i),
        row.words(),
    );
    words[R::COUNT] = n + 1;
}

// Row i goes.
pub(crate) fn remove<R: Held>(s: &mut StoredMut<'_>, i: usize)
    requires i_bound { i < slice_index s.old.words.now R.COUNT }
    ensures { Becomes (λ st. R.with (remove_at i (R.rows st)) st) s.old s.new }
{
    let words = &mut *s.words;
    let n = words[R::COUNT] - 1;
    words::remove(
        words,
        R::AT + R::WIDTH * i,
        R::WIDTH,
        R::WIDTH * (n as usize - i),
    );
    words[R::COUNT] = n;
}

// Another row in place of row i.
pub(crate) fn replace<R: Held>(s: &mut StoredMut<'_>, i: usize, row: &R)
    requires i_bound { i < slice_index s.old.words.now R.COUNT }
    requires row_value { R.fits (R.words row.now) ≡ true }
    ensures { Becomes (λ st. R.with (set (R.rows st) i (R.words row.now)) st) s.old s.new }
{
    words::store(s.words, R::AT + R::WIDTH * i, row.words());
}
