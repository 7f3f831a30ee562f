// What refuses a message, in its order: its header, its lengths, its family, the sizes of its attributes.
#![tactic(auto)]

ghost use Rattle.std.specs.Prelude.{◌≡◌, ◌≤◌, cond, leb, length, IfOk};
ghost use Rattle.refusal.specs.Refusal.{Refuses};
ghost use Rattle.netlink.specs.Reader.{message_length, attributes_at, family, headed};
ghost use Rattle.netlink.specs.Types.{number_of};
ghost use Rattle.netlink_refusal.specs.Order.{judged};

use netlink::{MessageType, codes};
use netlink_attributes::bytes;
use refusal::{Refusal, unless};

// A message whose header passed: its type, its bytes, and those of its attributes.
#[derive(Clone, Copy)]
pub struct Message<'a> {
    pub kind: MessageType,
    pub bytes: &'a [u8],
    pub body: &'a [u8],
    // ifaddrmsg or rtmsg is there.
    ghost whole: { attributes_at (number_of kind) ≤ length bytes.now },
}

impl<'a> Message<'a> {
    ghost use Rattle.netlink_refusal.specs.Parts.{Parts};

    // A message of a type, whose header says where it ends.
    #[inline(always)]
    pub fn of(kind: MessageType, m: &'a [u8], end: usize) -> Result<Self, Refusal>
        requires { end ≤ length m.now }
        ensures refuses { Refuses result (cond (leb (attributes_at (number_of kind)) end) 0 204) }
        ensures parts { IfOk result (Parts kind m.now end) }
    {
        let at = kind.attributes_at();
        if end < at {
            return Err(Refusal::BadLength);
        }
        Ok(Message {
            kind,
            bytes: m,
            body: &m[at..end],
        })
    }

    // Whether the lengths of its attributes are right, then its family, then whether their sizes are.
    #[inline(always)]
    pub fn judge(self, lengths: bool, sizes: bool) -> Result<(), Refusal>
        ensures { Refuses result (judged (family self.entry.bytes.now) lengths sizes) }
    {
        unless(lengths, Refusal::BadLength)?;
        unless(
            self.bytes[codes::HEADER] == codes::AF_INET,
            Refusal::OtherType,
        )?;
        unless(sizes, Refusal::WrongSize)
    }
}

pub fn message_length(m: &[u8]) -> usize
    requires { 16 ≤ length m.now }
    ensures { result ≡ message_length m.now }
{
    bytes::word(m, 0) as usize
}

// netlink's header is there, and its length covers it and doesn't pass the end.
#[tactic(auto, unfolding(netlink::specs::Reader::headed))]
#[inline(always)]
pub fn headed(m: &[u8]) -> Result<usize, Refusal>
    ensures refuses { Refuses result (cond (headed m.now) 0 204) }
    ensures ends { IfOk result (λ n. (n ≡ message_length m.now) × (n ≤ length m.now)) }
{
    if m.len() < codes::HEADER {
        return Err(Refusal::BadLength);
    }
    let end = message_length(m);
    if end < codes::HEADER || m.len() < end {
        return Err(Refusal::BadLength);
    }
    Ok(end)
}
