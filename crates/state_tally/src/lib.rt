// How many route rows each listed table has (document 02, Paper 8).
#![tactic(auto)]

ghost use Rattle.std.specs.Prelude.{◌≡◌, ◌≤◌, ◌<◌, true, eqb, leb, length, position, Some, IfSome};
ghost use Rattle.definition.specs.Words.{base_size, well_formed, decode, row_counts};
ghost use Rattle.lists.specs.Lists.{all};
ghost use Rattle.state_tally.specs.Tally.{Hinting, Placed, Counted, sums};

use layout::{
    ROUTE_COUNT, ROUTE_LIMIT, ROUTE_WORDS, ROUTES_AT, RouteRow, TABLE_COUNT, TABLE_LIMIT,
    TABLES_AT, route,
};

// The class of a number: the sum of its four bytes, so that tables that differ in one of them alone are of different classes.
fn class(table: u32) -> usize
    ensures { result < 256 }
{
    (table.wrapping_mul(0x0101_0101) >> 24) as usize
}

// For each class the place of a table of it, or 0 where there is none.
fn hints(tables: &[u32]) -> [u8; 256]
    requires { (0 < length tables.now) × (length tables.now ≤ 32) }
    ensures { Hinting tables.now result }
{
    let mut hints = [0; 256];
    for (i, t) in tables.iter().enumerate() {
        hints[class(*t)] = i as u8;
    }
    hints
}

fn search(tables: &[u32], table: u32) -> Option<usize>
    ensures { result ≡ position (eqb table) tables.now }
{
    tables.iter().position(|t| table == *t)
}

// The place of a table, if it is the one that the hint of its class says.
fn hinted(tables: &[u32], hints: &[u8; 256], table: u32) -> Option<usize>
    requires { Hinting tables.now hints.now }
    ensures { IfSome result (λ i. Placed tables.now table (Some i)) }
{
    let i = usize::from(hints[class(table)]);
    if tables[i] == table { Some(i) } else { None }
}

// The place of a table, looked for at its hint first.
fn place(tables: &[u32], hints: &[u8; 256], table: u32) -> Option<usize>
    requires { Hinting tables.now hints.now }
    ensures { Placed tables.now table result }
{
    if let Some(i) = hinted(tables, hints, table) {
        return Some(i);
    }
    search(tables, table)
}

fn sums(a: &[u32; TABLE_LIMIT], b: &[u32; TABLE_LIMIT]) -> [u32; TABLE_LIMIT]
    requires { (all (λ n. leb n 256) a.now ≡ true) × (all (λ n. leb n 256) b.now ≡ true) }
    ensures { result ≡ sums a.now b.now }
{
    let mut sums = *a;
    for (i, n) in b.iter().enumerate() {
        sums[i] += *n;
    }
    sums
}

// The counts, if each row's table is found at its hint.
// Both halves at once, each with counts of its own: rows of one table often follow one another, and adding to a count has to wait for
// the sum before it.
fn by_hints(routes: &[RouteRow], tables: &[u32], hints: &[u8; 256]) -> Option<[u32; TABLE_LIMIT]>
    requires { (length routes.now ≤ 256) × (length tables.now ≤ 32) × Hinting tables.now hints.now }
    ensures { IfSome result (λ counts. Counted routes.now tables.now counts) }
{
    let (front, back) = routes.split_at(routes.len() / 2);
    let mut counts = [0; TABLE_LIMIT];
    let mut others = [0; TABLE_LIMIT];
    for (k, r) in front.iter().enumerate() {
        let i = hinted(tables, hints, r[route::TABLE])?;
        let j = hinted(tables, hints, back[k][route::TABLE])?;
        counts[i] += 1;
        others[j] += 1;
    }
    for last in front.len()..back.len() {
        let j = hinted(tables, hints, back[last][route::TABLE])?;
        others[j] += 1;
    }
    Some(sums(&counts, &others))
}

fn by_search(routes: &[RouteRow], tables: &[u32], hints: &[u8; 256]) -> [u32; TABLE_LIMIT]
    requires { (length routes.now ≤ 256) × (length tables.now ≤ 32) × Hinting tables.now hints.now }
    ensures { Counted routes.now tables.now result }
{
    let mut counts = [0; TABLE_LIMIT];
    for r in routes {
        if let Some(i) = place(tables, hints, r[route::TABLE]) {
            counts[i] += 1;
        }
    }
    counts
}

// By hints alone where they suffice, since a loop without the search in it is faster.
fn tally(routes: &[RouteRow], tables: &[u32]) -> [u32; TABLE_LIMIT]
    requires { (length routes.now ≤ 256) × (length tables.now ≤ 32) }
    ensures { Counted routes.now tables.now result }
{
    if tables.is_empty() {
        return [0; TABLE_LIMIT];
    }
    let hints = hints(tables);
    match by_hints(routes, tables, &hints) {
        Some(counts) => counts,
        None => by_search(routes, tables, &hints),
    }
}

// Of the words of a state; other words may say that they have more rows or tables than there is room for.
pub fn row_counts(words: &[u32]) -> [u32; TABLE_LIMIT]
    requires { length words.now ≡ base_size }
    ensures { well_formed words.now ≡ true → result ≡ row_counts (decode words.now) }
{
    let n = (words[ROUTE_COUNT] as usize).min(ROUTE_LIMIT);
    let m = (words[TABLE_COUNT] as usize).min(TABLE_LIMIT);
    let (routes, _) = words[ROUTES_AT..ROUTES_AT + ROUTE_WORDS * n].as_chunks::<ROUTE_WORDS>();
    tally(routes, &words[TABLES_AT..TABLES_AT + m])
}
