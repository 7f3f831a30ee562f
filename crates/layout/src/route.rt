// Where each field stands in a route row; a request for a route begins with the first twelve.
pub const TABLE: usize = 0;

pub const DST: usize = 1;

pub const LEN: usize = 2;

pub const TOS: usize = 3;

pub const PRIORITY: usize = 4;

pub const KIND: usize = 5;

pub const PROTO: usize = 6;

pub const SCOPE: usize = 7;

pub const PREFSRC_PRESENT: usize = 8;

pub const PREFSRC: usize = 9;

pub const GATEWAY_PRESENT: usize = 10;

pub const GATEWAY: usize = 11;

pub const DEVICE: usize = 12;

pub const ONLINK: usize = 13;

pub const USES_GATEWAY: usize = 14;

pub const METRICS: usize = 15;
