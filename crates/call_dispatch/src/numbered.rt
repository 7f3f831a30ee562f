// The calls by their numbers in the list of answers.
ghost use Rattle.std.specs.Prelude.{◌≡◌, length};
ghost use Rattle.call_dispatch.specs.Numbered.{clock_of, call_by, code_of, call_of, Did};

use call_reply::Reply;
use life::Nanoseconds;
use std::error::Error;
use std::fmt;

#[derive(Clone, Copy, Debug, PartialEq, Eq)]
pub enum Call {
    Up,
    Down,
    AddV4,
    DelV4,
    Expire,
    AddRoute4,
    DelRoute4,
    Dump4,
    Lookup4,
    Lookup4Flow,
    Local4,
    Source4,
    Source,
    Select4,
    Left,
    AddV4Mask,
    DelV4Mask,
}

// A number that is no call's.
#[derive(Clone, Copy, Debug, PartialEq, Eq)]
pub struct UnknownCall(pub u32);

impl fmt::Display for UnknownCall {
    fn fmt<W: fmt::Write>(&self, f: &mut fmt::Formatter<W>) -> fmt::Result {
        write!(f, "no call has number {}", self.0)
    }
}

impl Error for UnknownCall {}

impl TryFrom<u32> for Call {
    type Error = UnknownCall;

    ghost try_from_gives = { λ code r. r ≡ call_of code };

    #[tactic(auto, unfolding(crate::specs::Numbered::call_of))]
    fn try_from(code: u32) -> Result<Self, UnknownCall> {
        match code {
            1 => Ok(Call::Up),
            2 => Ok(Call::Down),
            3 => Ok(Call::AddV4),
            4 => Ok(Call::DelV4),
            5 => Ok(Call::Expire),
            6 => Ok(Call::AddRoute4),
            7 => Ok(Call::DelRoute4),
            8 => Ok(Call::Dump4),
            9 => Ok(Call::Lookup4),
            10 => Ok(Call::Lookup4Flow),
            11 => Ok(Call::Local4),
            12 => Ok(Call::Source4),
            13 => Ok(Call::Source),
            14 => Ok(Call::Select4),
            15 => Ok(Call::Left),
            19 => Ok(Call::AddV4Mask),
            20 => Ok(Call::DelV4Mask),
            _ => Err(UnknownCall(code)),
        }
    }
}

impl From<Call> for u32 {
    ghost from_gives = { λ call code. code ≡ code_of call };

    fn from(call: Call) -> u32 {
        match call {
            Call::Up => 1,
            Call::Down => 2,
            Call::AddV4 => 3,
            Call::DelV4 => 4,
            Call::Expire => 5,
            Call::AddRoute4 => 6,
            Call::DelRoute4 => 7,
            Call::Dump4 => 8,
            Call::Lookup4 => 9,
            Call::Lookup4Flow => 10,
            Call::Local4 => 11,
            Call::Source4 => 12,
            Call::Source => 13,
            Call::Select4 => 14,
            Call::Left => 15,
            Call::AddV4Mask => 19,
            Call::DelV4Mask => 20,
        }
    }
}

impl fmt::Display for Call {
    fn fmt<W: fmt::Write>(&self, f: &mut fmt::Formatter<W>) -> fmt::Result {
        match self {
            Call::Up => write!(f, "up"),
            Call::Down => write!(f, "down"),
            Call::AddV4 => write!(f, "add_v4"),
            Call::DelV4 => write!(f, "del_v4"),
            Call::Expire => write!(f, "expire"),
            Call::AddRoute4 => write!(f, "add_route4"),
            Call::DelRoute4 => write!(f, "del_route4"),
            Call::Dump4 => write!(f, "dump4"),
            Call::Lookup4 => write!(f, "lookup4"),
            Call::Lookup4Flow => write!(f, "lookup4_flow"),
            Call::Local4 => write!(f, "local4"),
            Call::Source4 => write!(f, "source4"),
            Call::Source => write!(f, "source"),
            Call::Select4 => write!(f, "select4"),
            Call::Left => write!(f, "left"),
            Call::AddV4Mask => write!(f, "add_v4_mask"),
            Call::DelV4Mask => write!(f, "del_v4_mask"),
        }
    }
}

// A clock, or an allowance, of its low and its high word.
// A number and no `Nanoseconds`: the calls take it as C hands it over.
fn clock_of(low: u32, high: u32) -> u64
    ensures { result ≡ clock_of low high }
{
    Nanoseconds::from([low, high]).0
}

impl Call {
    // The call on the state and the buffer that it is lent, with its request or row and its numbers. The one place where a call that is
    // recorded by its number is made: each takes what is its own of these.
    pub fn make(
        self,
        state: &mut [u32],
        lent: &[u32],
        a: u32,
        b: u32,
        c: u32,
        d: u32,
        buffer: &mut [u32],
    ) -> Reply
        ensures { Did (call_by (code_of self) lent.now a b c d (length buffer.old) state.old)
            buffer.old result state.new buffer.new }
    {
        match self {
            Call::Up => crate::up(state, buffer, clock_of(a, b)),
            Call::Down => crate::down(state, buffer),
            Call::AddV4 => crate::add_v4(state, lent, buffer, clock_of(a, b)),
            Call::DelV4 => crate::del_v4(state, lent, buffer),
            Call::Expire => crate::expire(state, buffer, clock_of(a, b), clock_of(c, d)),
            Call::AddRoute4 => crate::add_route4(state, lent, buffer),
            Call::DelRoute4 => crate::del_route4(state, lent, buffer),
            Call::Dump4 => crate::dump4(state, buffer),
            Call::Lookup4 => crate::lookup4(state, buffer, a),
            Call::Lookup4Flow => crate::lookup4_flow(state, buffer, a, b, c),
            Call::Local4 => crate::local4(state, a),
            Call::Source4 => crate::source4(state, lent, a),
            Call::Source => crate::source(state, a),
            Call::Select4 => crate::select4(state, a, b, c),
            Call::Left => call_reply::remaining(row_address::left(lent, clock_of(a, b))),
            Call::AddV4Mask => crate::add_v4_mask(state, lent, buffer, clock_of(a, b)),
            Call::DelV4Mask => crate::del_v4_mask(state, lent, buffer),
        }
    }
}
