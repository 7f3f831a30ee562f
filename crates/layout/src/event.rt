// Where each field stands in an event row: its kind, a new route's flags, and the address or route row.
pub const KIND: usize = 0;

pub const FLAGS: usize = 1;

pub const ROW: usize = 2;

// An address row leaves words behind it, which are 0: where they begin, and how many they are.
pub const BEHIND_ADDRESS: usize = 22;

pub const BEHIND_ADDRESS_WORDS: usize = 12;

// Its kinds.
pub const NEW_ADDR4: u32 = 1;

pub const DEL_ADDR4: u32 = 2;

pub const NEW_ROUTE4: u32 = 3;

pub const DEL_ROUTE4: u32 = 4;

pub const LINK_DOWN: u32 = 5;

pub const IP_DISABLED: u32 = 6;
