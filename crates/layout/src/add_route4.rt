// Where each field stands in a request to add a route, behind the first twelve words of a route row.
pub const OIF: usize = 12;

pub const FLAGS: usize = 13;

pub const REQUEST: usize = 14;

pub const METRICS_ERROR: usize = 15;

pub const METRICS: usize = 16;

pub const UP: usize = 33;
