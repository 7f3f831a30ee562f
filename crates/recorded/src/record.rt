// A record of the list of answers (host/README.md): where each field stands, and what is made of one that is whole.
ghost use Rattle.std.specs.Prelude.{◌≡◌, ◌≤◌, length, set};
ghost use Rattle.call_reply.specs.Answer.{reply_of};
ghost use Rattle.recorded.specs.Record.{Bounds, set_all, sets_of, lent_of, changes_of, rows_of, restarted, before_of, after_of, result_of, held_by, buffer_by, same_reply, agrees};

use crate::HELD_WORDS;
use call_dispatch::numbered::Call;
use call_reply::Reply;
use layout::EVENT_BUFFER;

pub const CHECK: usize = 0;

pub const LENGTH: usize = 1;

// The call, whether the held words are set to 0 first, and how many of them, and of the buffer's, are lent.
pub const CALL: usize = 2;

pub const RESTARTS: usize = 3;

pub const STATE: usize = 4;

pub const BUFFER: usize = 5;

// The reply.
pub const NUMBER: usize = 6;

pub const PRESENT: usize = 7;

pub const VALUE: usize = 8;

pub const SECOND: usize = 9;

// Where the sets, the request or row, and the changes end.
pub const SETS_END: usize = 10;

pub const LENT_END: usize = 11;

pub const CHANGES_END: usize = 12;

// The call's numbers.
pub const A: usize = 13;

pub const B: usize = 14;

pub const C: usize = 15;

pub const D: usize = 16;

// Behind these words the sets begin.
pub const HEAD: usize = 17;

// A record whose parts lie in it.
#[derive(Clone, Copy)]
pub(crate) struct Record<'a> {
    pub(crate) words: &'a [u32],
    ghost bounds: { Bounds words.now },
}

// A word put in its place. A place past the end is none.
fn set_word(s: &mut [u32], at: u32, v: u32)
    ensures { s.new ≡ set s.old at v }
{
    let i = at as usize;
    if i < s.len() {
        s[i] = v;
    }
}

// Pairs of a place and a word, one after the other.
fn set_pairs(s: &mut [u32], pairs: &[u32])
    ensures { s.new ≡ set_all pairs.now s.old }
{
    let (pairs, _) = pairs.as_chunks::<2>();
    for [at, word] in pairs {
        set_word(s, *at, *word);
    }
}

impl<'a> Record<'a> {
    // The parts, a line each: one method of two places would be asked that they lie in order, which `Bounds` says of each part.
    fn sets(self) -> &'a [u32]
        ensures { result.now ≡ sets_of self.entry.words.now }
    {
        let r = self.words;
        &r[HEAD..r[SETS_END] as usize]
    }

    fn lent(self) -> &'a [u32]
        ensures { result.now ≡ lent_of self.entry.words.now }
    {
        let r = self.words;
        &r[r[SETS_END] as usize..r[LENT_END] as usize]
    }

    fn changed(self) -> &'a [u32]
        ensures { result.now ≡ changes_of self.entry.words.now }
    {
        let r = self.words;
        &r[r[LENT_END] as usize..r[CHANGES_END] as usize]
    }

    fn rows(self) -> &'a [u32]
        ensures { result.now ≡ rows_of self.entry.words.now }
    {
        let r = self.words;
        &r[r[CHANGES_END] as usize..]
    }

    // The held words all zero, where the record begins anew.
    fn restart(self, held: &mut [u32; HELD_WORDS])
        ensures { held.new ≡ restarted self.entry.words.now held.old }
    {
        if self.words[RESTARTS] == 1 {
            words::clear(held, 0, HELD_WORDS);
        }
    }

    // The held words as they are before the call.
    fn begin(self, held: &mut [u32; HELD_WORDS])
        ensures { held.new ≡ before_of self.entry.words.now held.old }
    {
        self.restart(held);
        set_pairs(held, self.sets());
    }

    // The record's call on the first of the held words and the first of the buffer.
    fn answer(self, held: &mut [u32; HELD_WORDS], buffer: &mut [u32; EVENT_BUFFER]) -> Reply
        ensures value { result ≡ reply_of (result_of self.entry.words.now held.old).reply }
        ensures held_after { held.new ≡ held_by self.entry.words.now held.old }
        ensures buffer_after { buffer.new ≡ buffer_by self.entry.words.now held.old buffer.old }
    {
        let r = self.words;
        let call = Call::try_from(r[CALL]).unwrap();
        call.make(
            &mut held[..r[STATE] as usize],
            self.lent(),
            r[A],
            r[B],
            r[C],
            r[D],
            &mut buffer[..r[BUFFER] as usize],
        )
    }

    fn same_reply(self, reply: Reply) -> bool
        ensures { result ≡ same_reply self.entry.words.now reply }
    {
        let r = self.words;
        reply
            == Reply {
                number: r[NUMBER],
                present: r[PRESENT],
                value: r[VALUE],
                second: r[SECOND],
            }
    }

    // Whether the call answers, changes and writes what the record says, and nothing else. The held words are afterwards as recorded.
    pub(crate) fn agrees(
        self,
        held: &mut [u32; HELD_WORDS],
        buffer: &mut [u32; EVENT_BUFFER],
    ) -> bool
        ensures value { result ≡ agrees self.entry.words.now held.old buffer.old }
        ensures held_after { held.new ≡ after_of self.entry.words.now held.old }
        ensures buffer_after { buffer.new ≡ buffer_by self.entry.words.now (before_of self.entry.words.now held.old) buffer.old }
    {
        self.begin(held);
        let mut left = *held;
        let mut wanted = *buffer;
        words::store(&mut wanted, 0, self.rows());
        let reply = self.answer(&mut left, buffer);
        set_pairs(held, self.changed());
        self.same_reply(reply) & (left == *held) & (*buffer == wanted)
    }
}
