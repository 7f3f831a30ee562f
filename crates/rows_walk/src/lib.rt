// A walk of the rows of routes, for a set of tables, to one destination after the other. Rows come by rising dst and destinations rise,
// so no row is passed twice.
#![tactic(auto)]

ghost use Rattle.std.specs.Prelude.{◌≡◌, ℕ, ◌+◌, ◌≤◌, ◌++◌, List, [], ◌∷◌, true, length};
ghost use Rattle.std.proofs.Math.Option as Math;
ghost use Rattle.std.proofs.Math.Option.{none, some};
ghost use Rattle.std.specs.List.{find};
ghost use Rattle.std.specs.Option.{option_map};
ghost use Rattle.lists.specs.Lists.{Row};
ghost use Rattle.lists.specs.Library.{lent};
ghost use Rattle.layout.specs.Route.{fit_route};
ghost use Rattle.definition.specs.Reference.Lookup.{answer, flow_to};
ghost use Rattle.rows_lookup.specs.Flow.{set_of};
ghost use Rattle.rows_walk.specs.Keeps.{Keeps, NotAbove, has_fit, picked};

use layout::{RouteRow, route};
use rows::{Routes, Rows};
use rows_lookup::{Flow, Tables};

// The greatest length of a prefix.
const LONGEST: usize = 32;

// Of the rows passed that have no tos, for each length of a prefix, the longest first, the first row of the greatest dst: of that
// length it alone can answer a destination that isn't below them.
#[derive(Drop)]
struct Kept<'a> {
    rows: [Option<&'a RouteRow>; LONGEST + 1],
}

// Whether there is a row, and it fits a destination.
fn fits(kept: Option<&RouteRow>, ip: u32) -> bool
    ensures { result ≡ has_fit ip kept.entry }
{
    kept.is_some_and(|r| rows_lookup::fits(r, Flow::to(ip)))
}

impl<'a> Kept<'a> {
    // One row more. With a tos it answers none, since no flow's tos is asked for.
    fn pass(&mut self, r: &'a RouteRow)
        requires fit { fit_route r.now ≡ true }
        ensures { (l : List Row) → Keeps l self.old.rows → NotAbove l r.now → Keeps (l ++ (r.now ∷ [])) self.new.rows }
    {
        let place = LONGEST - r[route::LEN] as usize;
        let first = self.rows[place].is_none_or(|k| k[route::DST] != r[route::DST]);
        if first & (r[route::TOS] == 0) {
            self.rows[place] = Some(r);
        }
    }

    // The first that fits a destination.
    fn first(&self, ip: u32) -> Option<&Option<&'a RouteRow>>
        ensures { option_map (λ k. k.now) result ≡ find (has_fit ip) self.now.rows }
    {
        self.rows.iter().find(|k| fits(**k, ip))
    }

    // The longest that fits a destination.
    fn longest(&self, ip: u32) -> Option<&'a RouteRow>
        ensures { lent result ≡ picked ip self.now.rows }
    {
        *self.first(ip)?
    }
}

// How far a walk has come: the rows that are left, and of those passed how many are of its tables.
#[derive(Drop)]
pub struct Walk<'a> {
    tables: Tables,
    rest: Routes<'a>,
    kept: Kept<'a>,
    pub weighed: usize,
    ghost few: { weighed + length rest.rows.now ≤ 18446744073709551615 },
}

impl<'a> Walk<'a> {
    ghost use Rattle.rows_walk.specs.Walked.{Rising, Walked, Onward};

    pub fn of(routes: Routes<'a>, tables: Tables) -> Self
        ensures { Walked tables routes.entry.rows.now none result }
    {
        Walk {
            tables,
            rest: routes,
            kept: Kept {
                rows: [None; LONGEST + 1],
            },
            weighed: 0,
        }
    }

    // Each row whose dst isn't above the destination is passed.
    fn advance(&mut self, ip: u32)
        ensures { (t : Tables) (l : List Row) (o : Math.Option ℕ) → Rising l → Onward o ip → Walked t l o self.old → Walked t l (some ip) self.new }
    {
        while let [r, rest @ ..] = self.rest.rows {
            if ip < r[route::DST] {
                return;
            }
            if self.tables.has(r[route::TABLE]) {
                self.weighed += 1;
                self.kept.pass(r);
            }
            self.rest = Rows { rows: rest };
        }
    }

    // The row that answers a destination, which isn't below one that was asked for before.
    pub fn answer(&mut self, ip: u32) -> Option<&'a RouteRow>
        ensures { (t : Tables) (l : List Row) (o : Math.Option ℕ) → Rising l → Onward o ip → Walked t l o self.old
            → (lent result ≡ answer (set_of t) (flow_to ip) l) × Walked t l (some ip) self.new }
    {
        self.advance(ip);
        self.kept.longest(ip)
    }
}
