// Destinations looked up together, on lent words (document 02, Paper 10). The call refuses unfit input with a number and then writes
// nothing.
#![tactic(auto)]

ghost use Rattle.std.specs.Prelude.{◌≡◌, ◌*◌, ◌≤◌, leb, length, true};
ghost use Rattle.lists.specs.Lists.{flat, put};
ghost use Rattle.definition.specs.Words.{decode, ordered};
ghost use Rattle.refusal.specs.Refusal.{Refuses};
ghost use Rattle.definition_many.specs.Many.{answer_size, answers as each_answer, rising, rows_weighed, unfit_destinations, lookup4_many_call};
ghost use Rattle.call_read.specs.Answer.{Writes, valuing};

use refusal::Refusal;
use rows_many::ANSWER_WORDS;
use state::Stored;

// The destinations of a call at most.
pub const DESTINATIONS: usize = 256;

// Whether a buffer of so many words has room for n answers.
pub fn has_room(n: usize, words: usize) -> bool
    ensures { result ≡ leb (answer_size * n) words }
{
    n <= words / ANSWER_WORDS
}

fn rises(destinations: &[u32]) -> bool
    ensures { result ≡ rising destinations.now }
{
    destinations.is_sorted()
}

// As many destinations as may be, and none below the one before it.
fn fit(destinations: &[u32]) -> Result<(), Refusal>
    ensures { Refuses result (unfit_destinations destinations.now) }
{
    refusal::unless(destinations.len() <= DESTINATIONS, Refusal::TooMany)?;
    refusal::unless(rises(destinations), Refusal::NotRising)
}

// For each destination of some that rise what `lookup4` gives, in the buffer: the rows in use are lent to the walks.
fn look(s: Stored<'_>, destinations: &[u32], answers: &mut [u32]) -> u32
    requires in_order { ordered (decode s.words.now).routes ≡ true }
    requires destinations { rising destinations.now ≡ true }
    requires room { answer_size * length destinations.now ≤ length answers.old }
    ensures value { result ≡ rows_weighed (decode s.entry.words.now) destinations.now }
    ensures answers_after { answers.new ≡ put 0 (flat (each_answer (decode s.entry.words.now) destinations.now)) answers.old }
{
    let listed = state_tables::listed(s, layout::TABLE_DEFAULT);
    rows_many::lookup4_many(s.routes(), listed, destinations, answers)
}

// For each destination what `lookup4` gives, and how many rows were weighed for all of them.
pub fn lookup4_many(
    state: &[u32],
    destinations: &[u32],
    answers: &mut [u32],
) -> Result<u32, Refusal>
    ensures { Writes valuing (lookup4_many_call (length answers.old) destinations.now state.now).reply answers.old answers.new result }
{
    let lent = has_room(destinations.len(), answers.len());
    let (s, ()) = call_read::reading(state, lent, fit(destinations))?;
    Ok(look(s, destinations, answers))
}
