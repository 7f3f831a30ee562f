// The call that reads a message off a socket into a request, on lent bytes and words. What is refused writes nothing.
#![tactic(auto)]

ghost use Rattle.std.specs.Prelude.{◌≡◌, ◌≤◌, length};
ghost use Rattle.lists.specs.Lists.{flat, put};
ghost use Rattle.definition.specs.Call.{numbers};
ghost use Rattle.refusal.specs.Refusal.{Refuses};
ghost use Rattle.netlink.specs.Attributes.{attributes};
ghost use Rattle.netlink.specs.Codes.{rtm_new_addr, rtm_del_addr, rtm_new_route, rtm_del_route};
ghost use Rattle.netlink.specs.Reader.{new_addr, del_addr, new_route, del_route};
ghost use Rattle.netlink.specs.Types.{number_of};
ghost use Rattle.call_read.specs.Answer.{answer_by};
ghost use Rattle.call_message.specs.Message.{read_call};
ghost use Rattle.netlink_refusal.specs.Order.{body_of, number_for};
ghost use Rattle.call_message.specs.Answer.{asked_by, request_of, address_number, route_number, Filled, Wrote};

use layout::{ADD_ROUTE4_WORDS, ADD_V4_WORDS, DEL_ROUTE4_WORDS, DEL_V4_WORDS};
use netlink::MessageType;
use netlink_address::{DelAddr, NewAddr};
use netlink_attributes::bytes;
use netlink_refusal::Message;
use netlink_route::{Metrics, Route};
use refusal::{Refusal, unless};

// What a reading answers: the message's type, and the words of the request that it wrote.
#[derive(Clone, Copy, Debug, PartialEq, Eq)]
pub struct Asked {
    pub kind: MessageType,
    pub words: u32,
}

// ---- the words of each request at the front of the lent words. By functions of their own, so that the memory of what is read ends before
// the answer is made: what is built then makes the numbers of a reply at each request's own end
#[inline(always)]
fn write_new_addr(message: Message, up: u32, words: &mut [u32]) -> Result<(), Refusal>
    requires { (24 ≤ length message.bytes.now) × (18 ≤ length words.old) }
    ensures { Filled (address_number rtm_new_addr message.entry.bytes.now message.entry.body.now)
        (new_addr up message.entry.bytes.now (attributes message.entry.body.now)) words.old result words.new }
{
    let mut fields = NewAddr::begun(message.bytes);
    fields.read(message)?;
    fields.write(message.bytes, up, words);
    Ok(())
}

#[inline(always)]
fn write_del_addr(message: Message, words: &mut [u32]) -> Result<(), Refusal>
    requires { (24 ≤ length message.bytes.now) × (11 ≤ length words.old) }
    ensures { Filled (address_number rtm_del_addr message.entry.bytes.now message.entry.body.now)
        (del_addr message.entry.bytes.now (attributes message.entry.body.now)) words.old result words.new }
{
    let fields = DelAddr::read(message)?;
    fields.write(message.bytes, words);
    Ok(())
}

#[inline(always)]
fn write_new_route(message: Message, up: u32, words: &mut [u32]) -> Result<(), Refusal>
    requires { (28 ≤ length message.bytes.now) × (34 ≤ length words.old) }
    ensures { Filled (route_number message.entry.bytes.now message.entry.body.now)
        (new_route up message.entry.bytes.now (attributes message.entry.body.now)) words.old result words.new }
{
    let mut metrics = Metrics::new();
    let route = Route::read(message, &mut metrics)?;
    route.write_new(&metrics, message.bytes, up, words);
    Ok(())
}

#[inline(always)]
fn write_del_route(message: Message, words: &mut [u32]) -> Result<(), Refusal>
    requires { (28 ≤ length message.bytes.now) × (49 ≤ length words.old) }
    ensures { Filled (route_number message.entry.bytes.now message.entry.body.now)
        (del_route message.entry.bytes.now (attributes message.entry.body.now)) words.old result words.new }
{
    let mut metrics = Metrics::new();
    let route = Route::read(message, &mut metrics)?;
    route.write_deleted(&metrics, message.bytes, words);
    Ok(())
}

// ---- each request, of a message that its header ends
#[inline(always)]
fn new_addr(m: &[u8], end: usize, up: u32, words: &mut [u32]) -> Result<Asked, Refusal>
    requires { (end ≤ length m.now) × (18 ≤ length words.old) }
    ensures { Wrote rtm_new_addr (number_for rtm_new_addr m.now end) (new_addr up m.now (attributes (body_of rtm_new_addr m.now end))) words.old result words.new }
{
    let message = Message::of(MessageType::NewAddr, m, end)?;
    write_new_addr(message, up, words)?;
    Ok(Asked {
        kind: message.kind,
        words: ADD_V4_WORDS as u32,
    })
}

#[inline(always)]
fn del_addr(m: &[u8], end: usize, words: &mut [u32]) -> Result<Asked, Refusal>
    requires { (end ≤ length m.now) × (11 ≤ length words.old) }
    ensures { Wrote rtm_del_addr (number_for rtm_del_addr m.now end) (del_addr m.now (attributes (body_of rtm_del_addr m.now end))) words.old result words.new }
{
    let message = Message::of(MessageType::DelAddr, m, end)?;
    write_del_addr(message, words)?;
    Ok(Asked {
        kind: message.kind,
        words: DEL_V4_WORDS as u32,
    })
}

#[inline(always)]
fn new_route(m: &[u8], end: usize, up: u32, words: &mut [u32]) -> Result<Asked, Refusal>
    requires { (end ≤ length m.now) × (34 ≤ length words.old) }
    ensures { Wrote rtm_new_route (number_for rtm_new_route m.now end) (new_route up m.now (attributes (body_of rtm_new_route m.now end))) words.old result words.new }
{
    let message = Message::of(MessageType::NewRoute, m, end)?;
    write_new_route(message, up, words)?;
    Ok(Asked {
        kind: message.kind,
        words: ADD_ROUTE4_WORDS as u32,
    })
}

#[inline(always)]
fn del_route(m: &[u8], end: usize, words: &mut [u32]) -> Result<Asked, Refusal>
    requires { (end ≤ length m.now) × (49 ≤ length words.old) }
    ensures { Wrote rtm_del_route (number_for rtm_del_route m.now end) (del_route m.now (attributes (body_of rtm_del_route m.now end))) words.old result words.new }
{
    let message = Message::of(MessageType::DelRoute, m, end)?;
    write_del_route(message, words)?;
    Ok(Asked {
        kind: message.kind,
        words: DEL_ROUTE4_WORDS as u32,
    })
}

// That of a message of a type.
#[tactic(auto, unfolding(netlink::specs::Reader::request))]
#[inline(always)]
fn request(
    kind: MessageType,
    m: &[u8],
    end: usize,
    up: u32,
    words: &mut [u32],
) -> Result<Asked, Refusal>
    requires { (end ≤ length m.now) × (49 ≤ length words.old) }
    ensures { Wrote (number_of kind) (number_for (number_of kind) m.now end) (request_of up kind m.now end) words.old result words.new }
{
    match kind {
        MessageType::NewAddr => new_addr(m, end, up, words),
        MessageType::DelAddr => del_addr(m, end, words),
        MessageType::NewRoute => new_route(m, end, up, words),
        MessageType::DelRoute => del_route(m, end, words),
    }
}

// A message into the request that the base judges; `up` goes into the requests that have it. It and what it calls are inlined into the
// exports, which then meet each type once.
#[inline(always)]
pub fn read(message: &[u8], words: &mut [u32], up: u32) -> Result<Asked, Refusal>
    ensures refuses { Refuses result (read_call (length words.old) up message.now).number }
    ensures says { answer_by asked_by result ≡ numbers (read_call (length words.old) up message.now) }
    ensures words_after { words.new ≡ put 0 (flat (read_call (length words.old) up message.now).rows) words.old }
{
    unless(DEL_ROUTE4_WORDS <= words.len(), Refusal::WrongLength)?;
    let end = netlink_refusal::headed(message)?;
    let kind = MessageType::try_from(bytes::half(message, 4))?;
    request(kind, message, end, up, words)
}
