// Where each field stands in an address row. A clock takes two words, the low one first; a label takes four.
pub const LOCAL: usize = 0;

pub const ADDRESS: usize = 1;

pub const PREFIX: usize = 2;

pub const BROADCAST_PRESENT: usize = 3;

pub const BROADCAST: usize = 4;

pub const SCOPE: usize = 5;

pub const FLAGS: usize = 6;

pub const PROTO: usize = 7;

pub const LABEL_LENGTH: usize = 8;

pub const LABEL: usize = 9;

pub const LABEL_1: usize = 10;

pub const LABEL_2: usize = 11;

pub const LABEL_3: usize = 12;

pub const PRIORITY: usize = 13;

pub const VALID: usize = 14;

pub const PREFERRED: usize = 15;

pub const CREATED: usize = 16;

pub const CREATED_HIGH: usize = 17;

pub const CHANGED: usize = 18;

pub const CHANGED_HIGH: usize = 19;
