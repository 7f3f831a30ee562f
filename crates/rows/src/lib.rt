// Rows of words: those of a list, one behind the other, each of which could stand in a well-formed state.
#![tactic(auto)]

ghost use Rattle.std.specs.Prelude.{◌≡◌, ◌<◌, Bool, true, List};
ghost use Rattle.lists.specs.Lists.{Row, all};
ghost use Rattle.lists.specs.Laid.{Laid, Lays};
ghost use Rattle.layout.specs.Address.{fit_address};
ghost use Rattle.layout.specs.Route.{fit_route};

use layout::{ADDRESS_WORDS, AddressRow, ROUTE_WORDS, RouteRow};
use std::alloc::AllocError;

// What makes a row fit.
pub trait Fit {
    ghost fits: { Self → Bool };
}

impl Fit for [u32; ADDRESS_WORDS] {
    ghost fits = { fit_address };
}

impl Fit for [u32; ROUTE_WORDS] {
    ghost fits = { fit_route };
}

pub struct Rows<'a, R: Fit> {
    pub rows: &'a [R],
    ghost fit: { all R.fits rows.now ≡ true },
}

// By hand, since neither `derive` nor `derive_where` takes a struct with a ghost field.
impl<R: Fit> Clone for Rows<'_, R> {
    fn clone(&self) -> Result<Self, AllocError> {
        Ok(*self)
    }
}

impl<R: Fit> Copy for Rows<'_, R> {}

pub type Routes<'a> = Rows<'a, RouteRow>;

pub type Addresses<'a> = Rows<'a, AddressRow>;

// The rows that the words are.
pub fn rows_of<const N: usize>(words: &[u32]) -> Rows<'_, [u32; N]>
where
    [u32; N]: Fit,
    requires nonzero { 0 < N }
    requires lays { Lays N ⟦<[u32; N] as Fit>⟧.fits words.now }
    ensures { (l : List Row) → Laid N ⟦<[u32; N] as Fit>⟧.fits words.now l → result.rows.now ≡ l }
{
    let (rows, _) = words.as_chunks::<N>();
    Rows { rows }
}
