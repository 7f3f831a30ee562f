// The calls as a host links them: `interface4w_*` on words, without a copy, and `interface4_*` on bytes, each word as four, the
// lowest first. Each gives the definition's number and values, and leaves its words.
// One function for each C name, with the arguments that C hands over: what may be absent is a mark and a word.
#![tactic(auto)]

use layout::{ADDRESS_WORDS, EVENT_BUFFER, LISTING_BUFFER, ROUTE_WORDS, STATE_WORDS};

mod changing;
mod events;
mod given;
mod many;
mod masks;
mod messages;
mod on_words;
mod parts;
mod reading;
mod recordings;

const STATE_BYTES: usize = 4 * STATE_WORDS;

const EVENT_BYTES: usize = 4 * EVENT_BUFFER;

const LISTING_BYTES: usize = 4 * LISTING_BUFFER;

const ROUTE_BYTES: usize = 4 * ROUTE_WORDS;

const ADDRESS_BYTES: usize = 4 * ADDRESS_WORDS;
