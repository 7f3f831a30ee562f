// A listing of the routes in parts, on lent words (document 02, Paper 6). Each part refuses unfit input and then writes nothing.
// Its arguments are those that C hands over.
#![tactic(auto)]

ghost use Rattle.std.specs.Prelude.{◌≡◌, ◌*◌, ◌+◌, ◌≤◌, ◌<◌, ◌&&◌, true, false, cond, min, leb, length, get_or};
ghost use Rattle.refusal.specs.Refusal.{Refuses};
ghost use Rattle.lists.specs.Lists.{flat, put};
ghost use Rattle.lists.specs.Rows.{sized};
ghost use Rattle.layout.specs.Route as Route;
ghost use Rattle.definition.specs.Words.{state_size, decode, none_twice};
ghost use Rattle.definition.specs.Step.{unless};
ghost use Rattle.definition.specs.Reference.Source.{dump4};
ghost use Rattle.definition_parts.specs.Parts.{part_rows, end_reached, part_limit};
ghost use Rattle.call_read.specs.Answer.{Writes};
ghost use Rattle.call_parts.specs.Answer.{part_by, part_call, cursor_of};

use layout::{COUNT_HIGH, COUNT_LOW, LISTING_BUFFER, ROUTE_WORDS};
use refusal::Refusal;
use state::Stored;

// The words of a cursor: the next place, then the count at the listing's start, its low word first.
pub const CURSOR_WORDS: usize = 3;

// The rows that may be asked for at most.
const MOST_ROWS: u32 = 256;

// Where a part goes on from: the listing's start, or the cursor.
#[derive(Clone, Copy)]
pub enum Place {
    Start,
    Cursor,
}

// What a part answers: how many rows it has, whether it bears the mark of an interrupted listing, and whether it reaches the end.
#[derive(Clone, Copy)]
pub struct Part {
    pub rows: u32,
    pub interrupted: bool,
    pub complete: bool,
}

fn fit_rows(rows: u32) -> Result<(), Refusal>
    ensures { Refuses result (unless (leb 1 rows && leb rows part_limit) 202) }
{
    refusal::unless((1 <= rows) & (rows <= MOST_ROWS), Refusal::Unfit)
}

// The words that a buffer must have for so many rows.
pub fn room_for(rows: u32) -> usize
    ensures { result ≡ Route.size * min rows part_limit }
{
    ROUTE_WORDS * rows.min(MOST_ROWS) as usize
}

// The cursor's words that a part goes on from.
fn cursor_from(place: Place, state: &[u32], cursor: &[u32]) -> [u32; CURSOR_WORDS]
    requires { (length state.now ≡ state_size) × (length cursor.now ≡ 3) }
    ensures { result ≡ cursor_of place cursor.now state.now }
{
    match place {
        Place::Start => [0, state[COUNT_LOW], state[COUNT_HIGH]],
        Place::Cursor => [cursor[0], cursor[1], cursor[2]],
    }
}

// The rows of a listing that a part has.
#[derive(Clone, Copy)]
struct Taken {
    rows: u32,
    complete: bool,
}

// The rows of the listing from a place on, at most so many, at the start of the buffer.
fn take(s: Stored<'_>, listing: &mut [u32], place: u32, rows: u32) -> Taken
    requires distinct { none_twice (decode s.words.now).tables ≡ true }
    requires few { (length (dump4 (decode s.words.now)) ≤ 256) × (sized 32 (dump4 (decode s.words.now)) ≡ true) }
    requires room { (rows ≤ 256) × (32 * rows ≤ length listing.old) }
    ensures rows { result.rows ≡ length (part_rows place rows (dump4 (decode s.entry.words.now))) }
    ensures next { result.rows + place < 4294967296 }
    ensures complete { result.complete ≡ end_reached (place + result.rows) (dump4 (decode s.entry.words.now)) }
    ensures listing_after { listing.new ≡ put 0 (flat (part_rows place rows (dump4 (decode s.entry.words.now)))) listing.old }
{
    let mut all = [0; LISTING_BUFFER];
    let n = state_read::list(s, &mut all);
    let from = n.min(place as usize);
    let to = n.min(from + rows as usize);
    words::store(listing, 0, &all[ROUTE_WORDS * from..ROUTE_WORDS * to]);
    Taken {
        rows: (to - from) as u32,
        complete: to == n,
    }
}

// A part of a listing, and where the next one goes on. At the start nothing in the cursor is looked at.
pub fn dump4_part(
    place: Place,
    state: &[u32],
    listing: &mut [u32],
    cursor: &mut [u32],
    rows: u32,
) -> Result<Part, Refusal>
    ensures value { Writes part_by (part_call place (length listing.old) cursor.old rows state.now).reply listing.old listing.new result }
    ensures cursor_after { cursor.new ≡ (part_call place (length listing.old) cursor.old rows state.now).cursor }
{
    let lent = (cursor.len() == CURSOR_WORDS) & (room_for(rows) <= listing.len());
    let (s, ()) = call_read::reading(state, lent, fit_rows(rows))?;
    let [at, low, high] = cursor_from(place, state, cursor);
    let taken = take(s, listing, at, rows);
    words::store(cursor, 0, &[at + taken.rows, low, high]);
    let count = state_count::read(state);
    Ok(Part {
        rows: taken.rows,
        interrupted: (count != state_count::of_words(low, high)) | (count == state_count::LARGEST),
        complete: taken.complete,
    })
}
