// A new address.
ghost use Rattle.std.specs.Prelude.{◌≡◌, ◌≤◌, ◌&&◌, not, is_some, IfOk, length};
ghost use Rattle.std.specs.List.{fold};
ghost use Rattle.lists.specs.Lists.{put};
ghost use Rattle.layout.specs.Flags.{has_bit};
ghost use Rattle.refusal.specs.Refusal.{Refuses};
ghost use Rattle.netlink.specs.Attributes.{attributes, right};
ghost use Rattle.netlink.specs.Codes.{replace_bit, excl_bit, rtm_new_addr, ifa_label};
ghost use Rattle.netlink.specs.Reader.{family, sizes};
ghost use Rattle.netlink_refusal.specs.Order.{judged};

use layout::AddV4;
use netlink::codes;
use netlink_attributes::fields::{Fields, walk};
use netlink_attributes::{Attribute, bytes};
use netlink_refusal::Message;
use refusal::Refusal;

// A label's words where none is given: those of lo.
const LO: [u32; 5] = [2, 0x6f6c, 0, 0, 0];

// Linux replaces where the header's flags have REPLACE and not EXCL.
#[tactic(auto, unfolding(layout::specs::Flags::has_bit))]
fn replaces(flags: u16) -> bool
    ensures { result ≡ has_bit replace_bit flags && not (has_bit excl_bit flags) }
{
    flags / 256 % 2 == 1 && flags / 512 % 2 != 1
}

// What a message seldom has beside its addresses, in the request's order.
#[derive(Clone, Copy)]
pub struct Extras {
    // Whether there is one, and the address.
    pub broadcast: [u32; 2],
    pub flags: u32,
    pub proto: u32,
    pub label: [u32; 5],
    pub priority: u32,
    pub valid: u32,
    pub preferred: u32,
    // Every attribute with a field has its size.
    pub is_sized: bool,
}

#[derive(Clone, Copy)]
pub struct NewAddr {
    pub local: Option<u32>,
    pub address: Option<u32>,
    pub extras: Extras,
}

impl Extras {
    ghost use Rattle.netlink_address.specs.Steps.{extras_step};

    // By a call: labels are rare, and what stays in memory for them is filled and stored by few instructions.
    #[inline(never)]
    fn take_label(&mut self, payload: &[u8])
        ensures { self.new ≡ extras_step self.old (record { code = ifa_label; payload = payload.now }) }
    {
        match bytes::label_words(payload) {
            Some(words) => self.label = words,
            None => self.is_sized = false,
        }
    }
}

impl Fields for NewAddr {
    ghost use Rattle.netlink_address.specs.Steps.{new_addr_step};

    ghost step = { new_addr_step };

    // By the size first, which the walk knows of most.
    #[inline(always)]
    fn take(&mut self, a: Attribute) {
        match a.payload.as_array::<4>() {
            Some(four) => match a.code {
                codes::IFA_ADDRESS => self.address = Some(u32::from_be_bytes(*four)),
                codes::IFA_LOCAL => self.local = Some(u32::from_be_bytes(*four)),
                codes::IFA_LABEL => self.extras.take_label(a.payload),
                codes::IFA_BROADCAST => {
                    self.extras.broadcast = [1, u32::from_be_bytes(*four)];
                }
                codes::IFA_FLAGS => self.extras.flags = u32::from_le_bytes(*four),
                codes::IFA_RT_PRIORITY => self.extras.priority = u32::from_le_bytes(*four),
                codes::IFA_CACHEINFO | codes::IFA_PROTO => self.extras.is_sized = false,
                _ => {}
            },
            None => match a.code {
                codes::IFA_ADDRESS
                | codes::IFA_LOCAL
                | codes::IFA_BROADCAST
                | codes::IFA_FLAGS
                | codes::IFA_RT_PRIORITY => self.extras.is_sized = false,
                codes::IFA_LABEL => self.extras.take_label(a.payload),
                codes::IFA_CACHEINFO => match bytes::lifetimes(a.payload) {
                    Some((preferred, valid)) => {
                        self.extras.preferred = preferred;
                        self.extras.valid = valid;
                    }
                    None => self.extras.is_sized = false,
                },
                codes::IFA_PROTO => match bytes::one_byte(a.payload) {
                    Some(n) => self.extras.proto = u32::from(n),
                    None => self.extras.is_sized = false,
                },
                _ => {}
            },
        }
    }
}

impl NewAddr {
    ghost use Rattle.netlink_address.specs.Steps.{new_addr_step};
    ghost use Rattle.netlink_address.specs.Words.{new_addr_begun, new_addr_words};

    // As they stand before any attribute.
    pub fn begun(m: &[u8]) -> Self
        requires { 24 ≤ length m.now }
        ensures { result ≡ new_addr_begun m.now }
    {
        NewAddr {
            local: None,
            address: None,
            extras: Extras {
                broadcast: [0; 2],
                flags: u32::from(m[18]),
                proto: 0,
                label: LO,
                priority: 0,
                valid: u32::MAX,
                preferred: u32::MAX,
                is_sized: true,
            },
        }
    }

    // Every attribute has its size, and a local one is there.
    #[inline]
    fn is_right(&self) -> bool
        ensures { result ≡ (self.now.extras.is_sized && is_some self.now.local) }
    {
        self.extras.is_sized && self.local.is_some()
    }

    // Into fields that stay where they are: what is handed on in a result is copied.
    #[inline(always)]
    pub fn read(&mut self, message: Message) -> Result<(), Refusal>
        requires { self.old ≡ new_addr_begun message.bytes.now }
        ensures refuses { Refuses result (judged (family message.entry.bytes.now) (right message.entry.body.now) (sizes rtm_new_addr (attributes message.entry.body.now))) }
        ensures fields { self.new ≡ fold new_addr_step (new_addr_begun message.entry.bytes.now) (attributes message.entry.body.now) }
    {
        let lengths = walk(message.body, self);
        message.judge(lengths, self.is_right())
    }

    // The words of the request.
    #[inline(always)]
    fn words(&self, m: &[u8], up: u32) -> AddV4
        requires { 24 ≤ length m.now }
        ensures { result ≡ new_addr_words up m.now self.now }
    {
        let local = self.local.unwrap_or(0);
        let [broadcasts, broadcast] = self.extras.broadcast;
        let [length, first, second, third, fourth] = self.extras.label;
        [
            local,
            self.address.unwrap_or(local),
            u32::from(m[17]),
            broadcasts,
            broadcast,
            u32::from(m[19]),
            self.extras.flags,
            self.extras.proto,
            length,
            first,
            second,
            third,
            fourth,
            self.extras.priority,
            self.extras.valid,
            self.extras.preferred,
            u32::from(replaces(u16::from_le_bytes([m[6], m[7]]))),
            up,
        ]
    }

    // They at the front of the lent words.
    #[inline(always)]
    pub fn write(&self, m: &[u8], up: u32, words: &mut [u32])
        requires { (24 ≤ length m.now) × (18 ≤ length words.old) }
        ensures { words.new ≡ put 0 (new_addr_words up m.now self.now) words.old }
    {
        words::store(words, 0, &self.words(m, up));
    }
}
