// The layout of document 01's words, derived from its limits, and the numbers that rows, requests and answers hold, as Linux's
// headers have them.
// Kinds, codes and tables are numbers, and what may be absent has a mark of 0 or 1 beside it: these words are the C interface's.
#![tactic(auto)]

pub mod add_route4;
pub mod add_v4;
pub mod address;
pub mod del_route4;
pub mod del_v4;
pub mod event;
pub mod route;

// The limits, which the port adds.
pub const ADDRESS_LIMIT: usize = 64;

pub const ROUTE_LIMIT: usize = 256;

pub const TABLE_LIMIT: usize = 32;

// The words of a row.
pub const ADDRESS_WORDS: usize = 20;

pub const ROUTE_WORDS: usize = 32;

pub const EVENT_WORDS: usize = 34;

pub type AddressRow = [u32; ADDRESS_WORDS];

pub type RouteRow = [u32; ROUTE_WORDS];

pub type EventRow = [u32; EVENT_WORDS];

// The metrics of a route.
pub const METRICS: usize = 17;

// The words of a request.
pub const ADD_V4_WORDS: usize = 18;

pub const DEL_V4_WORDS: usize = 11;

pub const ADD_ROUTE4_WORDS: usize = 34;

pub const DEL_ROUTE4_WORDS: usize = 49;

pub type AddV4 = [u32; ADD_V4_WORDS];

pub type DelV4 = [u32; DEL_V4_WORDS];

pub type AddRoute4 = [u32; ADD_ROUTE4_WORDS];

pub type DelRoute4 = [u32; DEL_ROUTE4_WORDS];

// The state: three counts, then the rows of each list.
pub const ADDRESS_COUNT: usize = 0;

pub const ROUTE_COUNT: usize = 1;

pub const TABLE_COUNT: usize = 2;

pub const ADDRESSES_AT: usize = 3;

pub const ROUTES_AT: usize = ADDRESSES_AT + ADDRESS_LIMIT * ADDRESS_WORDS;

pub const TABLES_AT: usize = ROUTES_AT + ROUTE_LIMIT * ROUTE_WORDS;

// The words of the three lists; behind them the change count's low and high word, and a row count for each place in the list of
// tables; and those of a state.
pub const BASE_WORDS: usize = TABLES_AT + TABLE_LIMIT;

pub const COUNT_LOW: usize = BASE_WORDS;

pub const COUNT_HIGH: usize = COUNT_LOW + 1;

pub const ROW_COUNTS_AT: usize = COUNT_HIGH + 1;

pub const STATE_WORDS: usize = ROW_COUNTS_AT + TABLE_LIMIT;

// The buffers: the event rows that a call may need at most, and a listing of all routes.
pub const EVENT_ROWS: usize = 385;

pub const EVENT_BUFFER: usize = EVENT_ROWS * EVENT_WORDS;

pub const LISTING_BUFFER: usize = ROUTE_LIMIT * ROUTE_WORDS;

// Tables: rtnetlink's RT_TABLE_*.
pub const TABLE_DEFAULT: u32 = 253;

pub const TABLE_MAIN: u32 = 254;

pub const TABLE_LOCAL: u32 = 255;

// Kinds of route: RTN_*.
pub const KIND_UNICAST: u32 = 1;

pub const KIND_LOCAL: u32 = 2;

pub const KIND_BROADCAST: u32 = 3;

// Scopes: RT_SCOPE_*.
pub const SCOPE_LINK: u32 = 253;

pub const SCOPE_HOST: u32 = 254;

// Whose route it is: RTPROT_KERNEL.
pub const PROTO_KERNEL: u32 = 2;

// Refusals: errno's E*.
pub const NO_ENTRY: u32 = 2;

pub const NO_SUCH: u32 = 3;

pub const AGAIN: u32 = 11;

pub const EXISTS: u32 = 17;

pub const NO_DEVICE: u32 = 19;

pub const INVALID: u32 = 22;

pub const NOT_SUPPORTED: u32 = 95;

pub const NO_SUCH_ADDRESS: u32 = 99;

pub const NET_DOWN: u32 = 100;

pub const NET_UNREACHABLE: u32 = 101;
