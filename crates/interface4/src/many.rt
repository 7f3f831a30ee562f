// Destinations looked up together, on words and on bytes.
ghost use Rattle.std.specs.Prelude.{◌≡◌, ◌≤◌, cond, eqb, length};
ghost use Rattle.lists.specs.Lists.{flat, put};
ghost use Rattle.endian.specs.Endian.{bytes_of};
ghost use Rattle.definition_many.specs.Many.{lookup4_many_call};
ghost use Rattle.definition_bytes.specs.Many.{lookup4_many_on_bytes};
ghost use Rattle.call_reply.specs.Answer.{reply_of};

use crate::{STATE_BYTES, given};
use call_many::DESTINATIONS;
use call_reply::Reply;
use layout::STATE_WORDS;
use refusal::Refusal;
use rows_many::ANSWER_WORDS;

// Of destinations on bytes as many are read: more are refused as these are.
const READ: usize = DESTINATIONS + 1;

// Room for an answer to each, which the call on words then never lacks.
const ANSWERS: usize = READ * ANSWER_WORDS;

#[unsafe(no_mangle)]
pub extern "C" fn interface4w_lookup4_many(
    state: &[u32],
    destinations: &[u32],
    answers: &mut [u32],
) -> Reply
    ensures value { result ≡ reply_of (lookup4_many_call (length answers.old) destinations.now state.now).reply }
    ensures answers_after { answers.new ≡ put 0 (flat (lookup4_many_call (length answers.old) destinations.now state.now).reply.rows) answers.old }
{
    Reply::of(call_many::lookup4_many(state, destinations, answers))
}

// How many answers are given back: none by a refusal.
fn answered(number: u32, n: usize) -> u32
    requires { n ≤ 257 }
    ensures { result ≡ cond (eqb number 0) n 0 }
{
    if number == 0 { n as u32 } else { 0 }
}

#[unsafe(no_mangle)]
pub extern "C" fn interface4_lookup4_many(
    state: &[u8],
    destinations: &[u8],
    answers: &mut [u8],
) -> Reply
    ensures value { result ≡ reply_of (lookup4_many_on_bytes (length answers.old) destinations.now state.now) }
    ensures answers_after { answers.new ≡ put 0 (bytes_of (flat (lookup4_many_on_bytes (length answers.old) destinations.now state.now).rows)) answers.old }
{
    let all = destinations.len() / 4;
    if !((state.len() == STATE_BYTES)
        & ((destinations.len() % 4 == 0) & call_many::has_room(all, answers.len() / 4)))
    {
        return Reply::from(Refusal::WrongLength);
    }
    let mut s = [0u32; STATE_WORDS];
    endian::words_of(state, &mut s);
    let n = all.min(READ);
    let mut d = [0u32; READ];
    endian::words_of(&destinations[0..4 * n], &mut d);
    let mut own = [0u32; ANSWERS];
    let answer = interface4w_lookup4_many(&s, &d[0..n], &mut own);
    given::give_rows(&own, ANSWER_WORDS, answered(answer.number, n), answers);
    answer
}
