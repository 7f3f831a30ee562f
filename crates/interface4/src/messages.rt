// Messages off a socket, on words and on bytes, and the sizes that a library and its host must agree on.
ghost use Rattle.std.specs.Prelude.{◌≡◌, length};
ghost use Rattle.lists.specs.Lists.{flat, put};
ghost use Rattle.endian.specs.Endian.{bytes_of};
ghost use Rattle.call_message.specs.Message.{read_call, read_on_bytes};
ghost use Rattle.call_reply.specs.Answer.{reply_of};
ghost use Rattle.interface4.specs.Answer.{sizes_reply};

use crate::given;
use call_reply::Reply;
use layout::{DEL_ROUTE4_WORDS, EVENT_ROWS, STATE_WORDS};
use refusal::Refusal;

// The bytes of the longest request.
const REQUEST_BYTES: usize = 4 * DEL_ROUTE4_WORDS;

// Inlined, also into what is exported under its name: a reply handed over in memory would be waited for.
#[unsafe(no_mangle)]
#[inline(always)]
pub extern "C" fn interface4w_read(message: &[u8], request: &mut [u32], up: u32) -> Reply
    ensures value { result ≡ reply_of (read_call (length request.old) up message.now) }
    ensures request_after { request.new ≡ put 0 (flat (read_call (length request.old) up message.now).rows) request.old }
{
    Reply::of(call_message::read(message, request, up))
}

#[unsafe(no_mangle)]
pub extern "C" fn interface4_read(message: &[u8], request: &mut [u8], up: u32) -> Reply
    ensures value { result ≡ reply_of (read_on_bytes (length request.old) up message.now) }
    ensures request_after { request.new ≡ put 0 (bytes_of (flat (read_on_bytes (length request.old) up message.now).rows)) request.old }
{
    if request.len() < REQUEST_BYTES {
        return Reply::from(Refusal::WrongLength);
    }
    let mut q = [0u32; DEL_ROUTE4_WORDS];
    let answer = interface4w_read(message, &mut q, up);
    given::give_request(&q, answer.second, request);
    answer
}

// The last paper of document 02 that landed.
const PAPER: u32 = 10;

#[unsafe(no_mangle)]
pub extern "C" fn interface4_sizes() -> Reply
    ensures { result ≡ reply_of sizes_reply }
{
    Reply {
        number: 0,
        present: PAPER,
        value: STATE_WORDS as u32,
        second: EVENT_ROWS as u32,
    }
}
