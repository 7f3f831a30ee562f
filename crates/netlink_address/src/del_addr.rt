// An address to delete.
ghost use Rattle.std.specs.Prelude.{◌≡◌, ◌≤◌, IfOk, length};
ghost use Rattle.std.specs.List.{fold};
ghost use Rattle.lists.specs.Lists.{put};
ghost use Rattle.refusal.specs.Refusal.{Refuses};
ghost use Rattle.netlink.specs.Attributes.{attributes, right};
ghost use Rattle.netlink.specs.Codes.{rtm_del_addr, ifa_label};
ghost use Rattle.netlink.specs.Reader.{family, sizes};
ghost use Rattle.netlink_refusal.specs.Order.{judged};

use layout::DelV4;
use netlink::codes;
use netlink_attributes::fields::{Fields, walk};
use netlink_attributes::{Attribute, bytes};
use netlink_refusal::Message;
use refusal::Refusal;

#[derive(Clone, Copy)]
pub struct DelAddr {
    // Whether there is one, and the address: as in the request.
    pub local: [u32; 2],
    pub address: [u32; 2],
    // Whether there is one, and its words.
    pub has_label: bool,
    pub label: [u32; 5],
    // Every attribute with a field has its size.
    pub is_sized: bool,
}

impl DelAddr {
    ghost use Rattle.netlink_address.specs.Steps.{del_addr_step};

    // By a call: labels are rare, and what stays in memory for them is cleared and stored by few instructions.
    #[inline(never)]
    fn take_label(&mut self, payload: &[u8])
        ensures { self.new ≡ del_addr_step self.old (record { code = ifa_label; payload = payload.now }) }
    {
        match bytes::label_words(payload) {
            Some(words) => {
                self.has_label = true;
                self.label = words;
            }
            None => self.is_sized = false,
        }
    }
}

impl Fields for DelAddr {
    ghost use Rattle.netlink_address.specs.Steps.{del_addr_step};

    ghost step = { del_addr_step };

    #[inline(always)]
    fn take(&mut self, a: Attribute) {
        match a.payload.as_array::<4>() {
            Some(four) => match a.code {
                codes::IFA_ADDRESS => self.address = [1, u32::from_be_bytes(*four)],
                codes::IFA_LOCAL => self.local = [1, u32::from_be_bytes(*four)],
                codes::IFA_LABEL => self.take_label(a.payload),
                _ => {}
            },
            None => match a.code {
                codes::IFA_ADDRESS | codes::IFA_LOCAL => self.is_sized = false,
                codes::IFA_LABEL => self.take_label(a.payload),
                _ => {}
            },
        }
    }
}

impl DelAddr {
    ghost use Rattle.netlink_address.specs.Steps.{del_addr_step};
    ghost use Rattle.netlink_address.specs.Words.{del_addr_begun, del_addr_words};

    // As they stand before any attribute.
    fn begun() -> Self
        ensures { result ≡ del_addr_begun }
    {
        DelAddr {
            local: [0; 2],
            address: [0; 2],
            has_label: false,
            label: [0; 5],
            is_sized: true,
        }
    }

    #[inline(always)]
    pub fn read(message: Message) -> Result<Self, Refusal>
        ensures refuses { Refuses result (judged (family message.entry.bytes.now) (right message.entry.body.now) (sizes rtm_del_addr (attributes message.entry.body.now))) }
        ensures fields { IfOk result (λ s. s ≡ fold del_addr_step del_addr_begun (attributes message.entry.body.now)) }
    {
        let mut fields = DelAddr::begun();
        let lengths = walk(message.body, &mut fields);
        message.judge(lengths, fields.is_sized)?;
        Ok(fields)
    }

    // The words of the request.
    #[inline(always)]
    fn words(self, m: &[u8]) -> DelV4
        requires { 24 ≤ length m.now }
        ensures { result ≡ del_addr_words m.now self }
    {
        let [length, first, second, third, fourth] = self.label;
        [
            self.local[0],
            self.local[1],
            self.address[0],
            self.address[1],
            u32::from(m[17]),
            u32::from(self.has_label),
            length,
            first,
            second,
            third,
            fourth,
        ]
    }

    // They at the front of the lent words.
    #[inline(always)]
    pub fn write(self, m: &[u8], words: &mut [u32])
        requires { (24 ≤ length m.now) × (11 ≤ length words.old) }
        ensures { words.new ≡ put 0 (del_addr_words m.now self) words.old }
    {
        words::store(words, 0, &self.words(m));
    }
}
