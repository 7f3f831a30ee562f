// A call's answer as four numbers, the same for every call.
#![tactic(auto)]

ghost use Rattle.std.specs.Prelude.{◌≡◌, ◌<◌, ℕ, IfOk, ⊤};
ghost use Rattle.refusal.specs.Refusal.{number_of};
ghost use Rattle.definition.specs.Call.{Numbers};
ghost use Rattle.definition.specs.Step.{unfit};
ghost use Rattle.call_read.specs.Answer.{answer_by, refused_by, nothing, flag, valuing, optional};
ghost use Rattle.call_message.specs.Answer.{asked_by};
ghost use Rattle.call_parts.specs.Answer.{part_by};
ghost use Rattle.row_address.specs.Row.{reply_of as row-address·reply_of};
ghost use Rattle.call_reply.specs.Answer.{left_by, reply_from, reply_of};

use call_message::Asked;
use call_parts::Part;
use life::Left;
use refusal::Refusal;

// Netlink's NLM_F_DUMP_INTR, the mark of an interrupted dump.
const INTERRUPTED: u32 = 0x10;

// The number is 0, or the refusal's number and then the rest is 0.
// All are words, the mark of what is present too, since C reads them.
#[repr(C)]
#[derive(Clone, Copy, Debug, PartialEq, Eq)]
pub struct Reply {
    pub number: u32,
    pub present: u32,
    pub value: u32,
    pub second: u32,
}

impl From<Refusal> for Reply {
    ghost from_gives = { λ e r. r ≡ reply_from (refused_by (number_of e)) };

    fn from(refusal: Refusal) -> Reply {
        Reply {
            number: refusal.number(),
            present: 0,
            value: 0,
            second: 0,
        }
    }
}

// Whether a call that is refused with this number has left every word, whatever the call.
// By the number: a reply holds no more of a refusal.
pub fn unfit(n: u32) -> bool
    ensures { result ≡ unfit n }
{
    200 <= n
}

fn valued(v: u32) -> Reply
    ensures { result ≡ record { number = 0; present = 0; value = v; second = 0 } }
{
    Reply {
        number: 0,
        present: 0,
        value: v,
        second: 0,
    }
}

// A value that a call answers, as the numbers of a reply.
pub trait Values {
    ghost numbers: { Self → Numbers };

    // What it takes for them to fit words.
    ghost fits: { Self → Type 0 };

    fn values(self) -> Reply
        requires { fits self }
        ensures { result ≡ reply_from (numbers self) };
}

impl Values for () {
    ghost numbers = { nothing };

    ghost fits = { λ _. ⊤ };

    fn values(self) -> Reply {
        valued(0)
    }
}

impl Values for bool {
    ghost numbers = { flag };

    ghost fits = { λ _. ⊤ };

    fn values(self) -> Reply {
        valued(u32::from(self))
    }
}

impl Values for u32 {
    ghost numbers = { valuing };

    ghost fits = { λ _. ⊤ };

    fn values(self) -> Reply {
        valued(self)
    }
}

// How many rows a call wrote: never more than 385.
impl Values for usize {
    ghost numbers = { valuing };

    ghost fits = { λ n. n < 4294967296 };

    fn values(self) -> Reply {
        valued(self as u32)
    }
}

impl Values for Option<u32> {
    ghost numbers = { optional };

    ghost fits = { λ _. ⊤ };

    fn values(self) -> Reply {
        match self {
            Some(value) => Reply {
                number: 0,
                present: 1,
                value,
                second: 0,
            },
            None => valued(0),
        }
    }
}

impl Values for Asked {
    ghost numbers = { asked_by };

    ghost fits = { λ _. ⊤ };

    fn values(self) -> Reply {
        Reply {
            number: 0,
            present: 0,
            value: u32::from(self.kind),
            second: self.words,
        }
    }
}

impl Values for Part {
    ghost numbers = { part_by };

    ghost fits = { λ _. ⊤ };

    fn values(self) -> Reply {
        Reply {
            number: 0,
            present: if self.interrupted { INTERRUPTED } else { 0 },
            value: self.rows,
            second: u32::from(self.complete),
        }
    }
}

impl Values for Left {
    ghost numbers = { left_by };

    ghost fits = { λ _. ⊤ };

    fn values(self) -> Reply {
        Reply {
            number: 0,
            present: 0,
            value: self.preferred.0,
            second: self.valid.0,
        }
    }
}

impl Reply {
    // A method and no From, which asks nothing of what it converts: a number of rows has to fit a word.
    pub fn of<T: Values>(answer: Result<T, Refusal>) -> Reply
        requires { IfOk answer T.fits }
        ensures { result ≡ reply_from (answer_by T.numbers answer) }
    {
        match answer {
            Ok(value) => value.values(),
            Err(refusal) => Reply::from(refusal),
        }
    }
}

pub fn remaining(l: Result<Left, Refusal>) -> Reply
    ensures { result ≡ reply_of (row-address·reply_of l) }
{
    Reply::of(l)
}
