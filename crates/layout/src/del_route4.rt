// Where each field stands in a request to delete a route, behind the first twelve words of a route row.
pub const OIF: usize = 12;

pub const LIST_PRESENT: usize = 13;

pub const PAIR_COUNT: usize = 14;

// Pairs of an index and a value: where the first pair's index stands, and its value.
pub const PAIRS: usize = 15;

pub const PAIR_VALUES: usize = 16;
