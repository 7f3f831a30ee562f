// Parts of a listing, on words and on bytes.
ghost use Rattle.std.specs.Prelude.{◌≡◌, length};
ghost use Rattle.definition_parts.specs.Parts.{dump4_begin_call, dump4_next_call};
ghost use Rattle.definition_bytes.specs.Parts.{dump4_begin_on_bytes, dump4_next_on_bytes};
ghost use Rattle.call_parts.specs.Answer.{part_call};
ghost use Rattle.interface4.specs.Parts.{PartMade, PartMadeOn, part_call_on_bytes};

use crate::{STATE_BYTES, given};
use call_parts::{CURSOR_WORDS, Place};
use call_reply::Reply;
use layout::{LISTING_BUFFER, ROUTE_WORDS, STATE_WORDS};
use refusal::Refusal;

const CURSOR_BYTES: usize = 4 * CURSOR_WORDS;

fn part(place: Place, state: &[u32], listing: &mut [u32], cursor: &mut [u32], rows: u32) -> Reply
    ensures { PartMade (part_call place (length listing.old) cursor.old rows state.now) listing.old result listing.new cursor.new }
{
    Reply::of(call_parts::dump4_part(place, state, listing, cursor, rows))
}

#[unsafe(no_mangle)]
pub extern "C" fn interface4w_dump4_begin(
    state: &[u32],
    listing: &mut [u32],
    cursor: &mut [u32],
    rows: u32,
) -> Reply
    ensures { PartMade (dump4_begin_call (length listing.old) cursor.old rows state.now) listing.old result listing.new cursor.new }
{
    part(Place::Start, state, listing, cursor, rows)
}

#[unsafe(no_mangle)]
pub extern "C" fn interface4w_dump4_next(
    state: &[u32],
    listing: &mut [u32],
    cursor: &mut [u32],
    rows: u32,
) -> Reply
    ensures { PartMade (dump4_next_call (length listing.old) cursor.old rows state.now) listing.old result listing.new cursor.new }
{
    part(Place::Cursor, state, listing, cursor, rows)
}

fn part_on_bytes(
    place: Place,
    state: &[u8],
    listing: &mut [u8],
    cursor: &mut [u8],
    rows: u32,
) -> Reply
    ensures { PartMadeOn (part_call_on_bytes place (length listing.old) cursor.old rows state.now) listing.old result listing.new cursor.new }
{
    let room = 4 * call_parts::room_for(rows);
    if !((state.len() == STATE_BYTES)
        & ((cursor.len() == CURSOR_BYTES) & (room <= listing.len())))
    {
        return Reply::from(Refusal::WrongLength);
    }
    let mut s = [0u32; STATE_WORDS];
    endian::words_of(state, &mut s);
    let mut k = [0u32; CURSOR_WORDS];
    endian::words_of(cursor, &mut k);
    let mut l = [0u32; LISTING_BUFFER];
    let answer = part(place, &s, &mut l, &mut k, rows);
    given::give_rows(&l, ROUTE_WORDS, answer.value, listing);
    given::give_rows(&k, CURSOR_WORDS, 1, cursor);
    answer
}

#[unsafe(no_mangle)]
pub extern "C" fn interface4_dump4_begin(
    state: &[u8],
    listing: &mut [u8],
    cursor: &mut [u8],
    rows: u32,
) -> Reply
    ensures { PartMadeOn (dump4_begin_on_bytes (length listing.old) cursor.old rows state.now) listing.old result listing.new cursor.new }
{
    part_on_bytes(Place::Start, state, listing, cursor, rows)
}

#[unsafe(no_mangle)]
pub extern "C" fn interface4_dump4_next(
    state: &[u8],
    listing: &mut [u8],
    cursor: &mut [u8],
    rows: u32,
) -> Reply
    ensures { PartMadeOn (dump4_next_on_bytes (length listing.old) cursor.old rows state.now) listing.old result listing.new cursor.new }
{
    part_on_bytes(Place::Cursor, state, listing, cursor, rows)
}
