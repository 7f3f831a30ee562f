// The numbers of a message, for code; `specs` has the reader's definition.
#![tactic(auto)]

ghost use Rattle.std.specs.Prelude.{◌≡◌};
ghost use Rattle.netlink.specs.Types.{number_of};
ghost use Rattle.netlink.specs.Reader.{attributes_at};

pub mod codes;

use refusal::Refusal;

// What a message asks for: rtnetlink's RTM_*.
#[derive(Clone, Copy, Debug, PartialEq, Eq)]
pub enum MessageType {
    NewAddr,
    DelAddr,
    NewRoute,
    DelRoute,
}

impl MessageType {
    // The bytes up to the attributes: netlink's header, and ifaddrmsg or rtmsg.
    pub fn attributes_at(self) -> usize
        ensures { result ≡ attributes_at (number_of self) }
    {
        match self {
            MessageType::NewAddr | MessageType::DelAddr => codes::ADDRESS_ATTRIBUTES_AT,
            MessageType::NewRoute | MessageType::DelRoute => codes::ROUTE_ATTRIBUTES_AT,
        }
    }
}

impl From<MessageType> for u32 {
    ghost use Rattle.netlink.specs.Types.{number_of};

    ghost from_gives = { λ t n. n ≡ number_of t };

    fn from(t: MessageType) -> u32 {
        let number = match t {
            MessageType::NewAddr => codes::RTM_NEWADDR,
            MessageType::DelAddr => codes::RTM_DELADDR,
            MessageType::NewRoute => codes::RTM_NEWROUTE,
            MessageType::DelRoute => codes::RTM_DELROUTE,
        };
        u32::from(number)
    }
}

impl TryFrom<u16> for MessageType {
    ghost use Rattle.netlink.specs.Types.{Decodes};

    type Error = Refusal;

    ghost try_from_gives = { Decodes };

    fn try_from(n: u16) -> Result<Self, Refusal> {
        match n {
            codes::RTM_NEWADDR => Ok(MessageType::NewAddr),
            codes::RTM_DELADDR => Ok(MessageType::DelAddr),
            codes::RTM_NEWROUTE => Ok(MessageType::NewRoute),
            codes::RTM_DELROUTE => Ok(MessageType::DelRoute),
            _ => Err(Refusal::OtherType),
        }
    }
}
