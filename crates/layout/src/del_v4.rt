// Where each field stands in a request to delete an address.
pub const LOCAL_PRESENT: usize = 0;

pub const LOCAL: usize = 1;

pub const ADDRESS_PRESENT: usize = 2;

pub const ADDRESS: usize = 3;

pub const PREFIX: usize = 4;

pub const LABEL_PRESENT: usize = 5;

pub const LABEL_LENGTH: usize = 6;

pub const LABEL: usize = 7;

pub const LABEL_1: usize = 8;

pub const LABEL_2: usize = 9;

pub const LABEL_3: usize = 10;
