// Where each field stands in a request to add an address, behind the first fourteen words of an address row.
pub const VALID: usize = 14;

pub const PREFERRED: usize = 15;

pub const REPLACE: usize = 16;

pub const UP: usize = 17;
