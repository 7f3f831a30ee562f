// Route rows rebuilt from a recording of events, and two recordings held together (document 02, Paper 9), on lent words and on lent
// bytes. What is refused writes nothing, so the rows are rebuilt in words of the call's own: those of a state with these routes alone.
#![tactic(auto)]

ghost use Rattle.std.specs.Prelude.{◌≡◌, List, [], map, length};
ghost use Rattle.lists.specs.Lists.{Row, flat, put, zeros};
ghost use Rattle.endian.specs.Endian.{words_of, bytes_of};
ghost use Rattle.definition.specs.Words.{base_size};
ghost use Rattle.definition_recording.specs.Recording.{event, rebuild_from, compared_reply, rebuild_call, same_call};
ghost use Rattle.definition_bytes.specs.Recording.{rebuild_on_bytes, same_on_bytes};
ghost use Rattle.step_rebuild.specs.Holds.{HoldsRows, Came};
ghost use Rattle.call_read.specs.Answer.{Says, Writes, valuing, flag};
ghost use Rattle.call_recording.specs.Laws.{Gives};

use layout::{BASE_WORDS, EVENT_WORDS, LISTING_BUFFER, RouteRow};
use refusal::Refusal;
use state::{Stored, StoredMut};

// The bytes of an event row, and of a listing.
const EVENT_BYTES: usize = 4 * EVENT_WORDS;

const LISTING_BYTES: usize = 4 * LISTING_BUFFER;

// An event row as it is recorded: its words, or these as bytes.
trait Recorded {
    ghost words: { Self → Row };

    // It is done again on the rows rebuilt so far.
    fn redo(&self, s: &mut StoredMut<'_>) -> Result<(), Refusal>
        ensures came { (l : List Row) → HoldsRows s.old.words.now l → Came (event (words self.now) l) s.new.words.now result }
        ensures place { s.new.words.ghost_name ≡ s.old.words.ghost_name };
}

impl Recorded for [u32; EVENT_WORDS] {
    ghost words = { λ e. e };

    fn redo(&self, s: &mut StoredMut<'_>) -> Result<(), Refusal> {
        step_rebuild::event(s, self)
    }
}

impl Recorded for [u8; EVENT_BYTES] {
    ghost words = { words_of };

    fn redo(&self, s: &mut StoredMut<'_>) -> Result<(), Refusal> {
        let mut e = [0u32; EVENT_WORDS];
        endian::words_of(self, &mut e);
        step_rebuild::event(s, &e)
    }
}

// The events one after the other, up to the first that is refused.
fn replay<E: Recorded>(events: &[E], s: &mut StoredMut<'_>) -> Result<(), Refusal>
    ensures came { (l : List Row) → HoldsRows s.old.words.now l → Came (rebuild_from (map E.words events.now) l) s.new.words.now result }
    ensures place { s.new.words.ghost_name ≡ s.old.words.ghost_name }
{
    for e in events {
        e.redo(s)?;
    }
    Ok(())
}

// The rows that the events rebuild, in words of which none is used yet.
fn rebuilt<'a, E: Recorded>(events: &[E], own: &'a mut [u32]) -> Result<&'a [RouteRow], Refusal>
    requires { own.old ≡ zeros base_size }
    ensures { Gives (rebuild_from (map E.words events.now) []) result }
{
    let mut s = StoredMut { words: own };
    replay(events, &mut s)?;
    let StoredMut { words } = s;
    Ok(Stored { words }.routes().rows)
}

// Whether the events of two recordings rebuild the same rows in the same order; the first is refused first.
fn same_rows<E: Recorded>(first: &[E], second: &[E]) -> Result<bool, Refusal>
    ensures { Says flag (compared_reply (rebuild_from (map E.words first.now) []) (rebuild_from (map E.words second.now) [])) result }
{
    let mut own = [0u32; BASE_WORDS];
    let rows = rebuilt(first, &mut own)?;
    let mut other = [0u32; BASE_WORDS];
    let others = rebuilt(second, &mut other)?;
    Ok(rows == others)
}

// The rows that a recording rebuilds, at the start of those lent; how many.
pub fn rebuild(recording: &[u32], rows: &mut [u32]) -> Result<usize, Refusal>
    ensures { Writes valuing (rebuild_call (length rows.old) recording.now) rows.old rows.new result }
{
    let (events, rest) = recording.as_chunks::<EVENT_WORDS>();
    let fit = rest.is_empty() & (LISTING_BUFFER <= rows.len());
    refusal::unless(fit, Refusal::WrongLength)?;
    let mut own = [0u32; BASE_WORDS];
    let routes = rebuilt(events, &mut own)?;
    words::store(rows, 0, routes.as_flattened());
    Ok(routes.len())
}

pub fn rebuild_bytes(recording: &[u8], rows: &mut [u8]) -> Result<usize, Refusal>
    ensures value { Says valuing (rebuild_on_bytes (length rows.old) recording.now) result }
    ensures rows_after { rows.new ≡ put 0 (bytes_of (flat (rebuild_on_bytes (length rows.old) recording.now).rows)) rows.old }
{
    let (events, rest) = recording.as_chunks::<EVENT_BYTES>();
    let fit = rest.is_empty() & (LISTING_BYTES <= rows.len());
    refusal::unless(fit, Refusal::WrongLength)?;
    let mut own = [0u32; BASE_WORDS];
    let routes = rebuilt(events, &mut own)?;
    endian::bytes_of(routes.as_flattened(), rows);
    Ok(routes.len())
}

// Whether two recordings rebuild the same rows in the same order.
pub fn same(first: &[u32], second: &[u32]) -> Result<bool, Refusal>
    ensures { Says flag (same_call first.now second.now) result }
{
    let (first, rest) = first.as_chunks::<EVENT_WORDS>();
    let (second, more) = second.as_chunks::<EVENT_WORDS>();
    refusal::unless(rest.is_empty() & more.is_empty(), Refusal::WrongLength)?;
    same_rows(first, second)
}

pub fn same_bytes(first: &[u8], second: &[u8]) -> Result<bool, Refusal>
    ensures { Says flag (same_on_bytes first.now second.now) result }
{
    let (first, rest) = first.as_chunks::<EVENT_BYTES>();
    let (second, more) = second.as_chunks::<EVENT_BYTES>();
    refusal::unless(rest.is_empty() & more.is_empty(), Refusal::WrongLength)?;
    same_rows(first, second)
}
