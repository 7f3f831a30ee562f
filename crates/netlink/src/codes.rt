// As netlink(7), rtnetlink(7) and the Linux headers have them (specs/Codes).

// The header's types.
pub const RTM_NEWADDR: u16 = 20;

pub const RTM_DELADDR: u16 = 21;

pub const RTM_NEWROUTE: u16 = 24;

pub const RTM_DELROUTE: u16 = 25;

pub const AF_INET: u8 = 2;

// The bytes of netlink's header, and those up to the attributes behind ifaddrmsg and rtmsg.
pub const HEADER: usize = 16;

pub const ADDRESS_ATTRIBUTES_AT: usize = 24;

pub const ROUTE_ATTRIBUTES_AT: usize = 28;

// The codes of attributes are numbers and no enum: a socket may send any.
// Attributes of an address.
pub const IFA_ADDRESS: usize = 1;

pub const IFA_LOCAL: usize = 2;

pub const IFA_LABEL: usize = 3;

pub const IFA_BROADCAST: usize = 4;

pub const IFA_CACHEINFO: usize = 6;

pub const IFA_FLAGS: usize = 8;

pub const IFA_RT_PRIORITY: usize = 9;

pub const IFA_PROTO: usize = 11;

// The most bytes of a label, and those of cache information.
pub const LABEL_MAX: usize = 15;

pub const CACHEINFO_BYTES: usize = 16;

// Attributes of a route.
pub const RTA_DST: usize = 1;

pub const RTA_OIF: usize = 4;

pub const RTA_GATEWAY: usize = 5;

pub const RTA_PRIORITY: usize = 6;

pub const RTA_PREFSRC: usize = 7;

pub const RTA_METRICS: usize = 8;

pub const RTA_TABLE: usize = 15;

// The greatest type of a metric.
pub const RTAX_MAX: usize = 17;
