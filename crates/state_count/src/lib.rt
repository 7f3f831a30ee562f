// What stands behind a state's lists: the change count, in two words (document 02, Paper 6), and the row counts, made anew where a call
// changed a route or listed a table (Paper 8).
#![tactic(auto)]

ghost use Rattle.std.specs.Prelude.{◌≡◌, ◌+◌, ◌*◌, ◌++◌, true, length};
ghost use Rattle.lists.specs.Lists.{put};
ghost use Rattle.definition.specs.Words.{base_size, state_size, base, state_of, well_formed, change_count, counted, row_counts};

use layout::{BASE_WORDS, COUNT_HIGH, COUNT_LOW, ROW_COUNTS_AT};

// At the largest it stops.
pub const LARGEST: u64 = u64::MAX;

// A count of its two words.
pub fn of_words(low: u32, high: u32) -> u64
    ensures { result ≡ low + high * 4294967296 }
{
    u64::from(low) + u64::from(high) * 4_294_967_296
}

// The count of a state.
pub fn read(state: &[u32]) -> u64
    requires { length state.now ≡ state_size }
    ensures { result ≡ change_count state.now }
{
    of_words(state[COUNT_LOW], state[COUNT_HIGH])
}

// One change more, which leaves the row counts true.
pub fn count(state: &mut [u32])
    requires { length state.old ≡ state_size }
    ensures { state.new ≡ put base_size (counted true state.old) state.old }
{
    let Some(after) = read(state).checked_add(1) else {
        return;
    };
    state[COUNT_LOW] = (after % 4_294_967_296) as u32;
    state[COUNT_HIGH] = (after / 4_294_967_296) as u32;
}

// The lists have changed: that is counted, and so are the rows of each table.
pub fn settle(state: &mut [u32])
    requires { length state.old ≡ state_size }
    ensures { well_formed (base state.old) ≡ true → state.new ≡ base state.old ++ (counted true state.old ++ row_counts (state_of state.old)) }
{
    count(state);
    let counts = state_tally::row_counts(&state[..BASE_WORDS]);
    words::store(state, ROW_COUNTS_AT, &counts);
}
