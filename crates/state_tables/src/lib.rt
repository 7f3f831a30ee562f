// The tables that a state lists.
// A table is a number, since a row or a request may name any; `Stored` is another crate's, so these are no methods of it.
#![tactic(auto)]

ghost use Rattle.std.specs.Prelude.{◌≡◌, ◌≤◌, length};
ghost use Rattle.lists.specs.Lists.{among};
ghost use Rattle.definition.specs.State.{with_tables};
ghost use Rattle.definition.specs.Reference.Insert.{add_table, list_table, create4};
ghost use Rattle.state.specs.Stored.{Becomes};
ghost use Rattle.state_tables.specs.Listed.{tables_of};

use layout::{TABLE_COUNT, TABLES_AT};
use state::{Stored, StoredMut};

// The words of the tables in use.
pub fn tables<'a>(s: Stored<'a>) -> &'a [u32]
    ensures { result.now ≡ tables_of s.entry.words.now }
{
    let end = TABLES_AT + s.words[TABLE_COUNT] as usize;
    &s.words[TABLES_AT..end]
}

// By `any`: `contains` compares by groups, and a state has few tables, which each route that is put in asks for two to four times.
pub fn listed(s: Stored<'_>, t: u32) -> bool
    ensures { result ≡ among t (tables_of s.entry.words.now) }
{
    tables(s).iter().any(|listed| t == *listed)
}

// A table that is not listed goes to the end.
pub fn add_table(s: &mut StoredMut<'_>, t: u32)
    requires { length (add_table t (tables_of s.old.words.now)) ≤ 32 }
    ensures { Becomes (λ st. with_tables (add_table t st.tables) st) s.old s.new }
{
    if listed(s.stored(), t) {
        return;
    }
    let words = &mut *s.words;
    let n = words[TABLE_COUNT];
    words[TABLES_AT + n as usize] = t;
    words[TABLE_COUNT] = n + 1;
}

// How many tables there are once t is added.
fn with_table(s: Stored<'_>, t: u32) -> usize
    ensures { result ≡ length (add_table t (tables_of s.entry.words.now)) }
{
    let n = tables(s).len();
    if listed(s, t) { n } else { n + 1 }
}

// How many tables there are once t is listed, and with 255 also 254: past 32 they have no room.
pub fn tables_after(s: Stored<'_>, t: u32) -> usize
    ensures { result ≡ length (list_table t (tables_of s.entry.words.now)) }
{
    let n = with_table(s, t);
    if t == layout::TABLE_LOCAL && !listed(s, layout::TABLE_MAIN) {
        n + 1
    } else {
        n
    }
}

// A table is listed; 255 brings 254 along if that is unlisted.
pub fn list_table(s: &mut StoredMut<'_>, t: u32)
    requires { length (list_table t (tables_of s.old.words.now)) ≤ 32 }
    ensures { Becomes (create4 t) s.old s.new }
{
    if t == layout::TABLE_LOCAL {
        add_table(s, layout::TABLE_MAIN);
    }
    add_table(s, t);
}
