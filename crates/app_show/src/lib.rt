// What the printing program prints: a state's listing, or why the bytes are refused. And the program itself, on any input.
#![tactic(auto)]

ghost use Rattle.std.specs.Prelude.{◌≡◌, true, ◌+◌, ◌*◌, ◌≤◌, length, take, MatchResult};
ghost use Rattle.lists.specs.Lists.{put};
ghost use Rattle.endian.specs.Endian.{words_of};
ghost use Rattle.refusal.specs.Refusal.{number_of};
ghost use Rattle.definition.specs.Words.{state_size, decode, well_formed, formed};
ghost use Rattle.definition.specs.Reference.Source.{dump4};
ghost use Rattle.text.specs.Print.{render, refused_line};
ghost use Rattle.text.specs.Wrote.{Appends};
ghost use Rattle.app_show.specs.Show.{shown};

use layout::{BASE_WORDS, LISTING_BUFFER, ROUTE_WORDS, RouteRow, STATE_WORDS};
use refusal::{Refusal, unless};
use state::Stored;
use std::io::Read;
use text::Text;

// The bytes of a state.
const STATE_BYTES: usize = 4 * STATE_WORDS;

// One more, so that an input with too many is seen.
const INPUT_BYTES: usize = STATE_BYTES + 1;

// The rows of the listing of a state, in lent words.
fn listed<'a>(s: Stored<'_>, listing: &'a mut [u32; LISTING_BUFFER]) -> &'a [RouteRow]
    requires { well_formed s.words.now ≡ true }
    ensures few { length result.now ≤ 256 }
    ensures rows { result.now ≡ dump4 (decode s.entry.words.now) }
{
    let n = state_read::list(s, listing);
    let (words, _) = listing.split_at(ROUTE_WORDS * n);
    let (rows, _) = words.as_chunks::<ROUTE_WORDS>();
    rows
}

// The listing of a state.
fn show_listing(s: Stored<'_>, text: &mut Text<'_>)
    requires formed { well_formed s.words.now ≡ true }
    requires room { text.old.len + 19220 ≤ length text.old.out.now }
    ensures { Appends text.old (render (dump4 (decode s.entry.words.now))) text.new }
{
    let mut listing = [0u32; LISTING_BUFFER];
    text.render(listed(s, &mut listing));
}

// The words of a state, as its bytes are read.
fn read_state(bytes: &[u8]) -> Result<[u32; STATE_WORDS], Refusal>
    ensures { MatchResult result (λ s. (s ≡ words_of bytes.now) × (length bytes.now ≡ 4 * state_size) × (formed s ≡ true)) (λ e. shown bytes.now ≡ refused_line (number_of e)) }
{
    unless(bytes.len() == STATE_BYTES, Refusal::WrongLength)?;
    let mut s = [0u32; STATE_WORDS];
    endian::words_of(bytes, &mut s);
    unless(state_well_formed::formed(&s), Refusal::Malformed)?;
    Ok(s)
}

// What is printed of any bytes.
fn show_bytes(bytes: &[u8], text: &mut Text<'_>)
    requires { text.old.len + 19220 ≤ length text.old.out.now }
    ensures { Appends text.old (shown bytes.now) text.new }
{
    match read_state(bytes) {
        Ok(s) => {
            let words = &s[..BASE_WORDS];
            show_listing(Stored { words }, text)
        }
        Err(refusal) => text.refused_line(refusal.number()),
    }
}

// What is printed of any bytes, at the start of out; how many bytes it is, is returned.
// It fills what it is lent, since there is no heap.
pub fn show(bytes: &[u8], out: &mut [u8; 19220]) -> usize
    ensures upper_bound { (result ≤ length out.new) × (result ≡ length (take result out.new)) }
    ensures value { result ≡ length (shown bytes.now) }
    ensures out_after { out.new ≡ put 0 (shown bytes.now) out.old }
{
    let mut text = Text::new(out);
    show_bytes(bytes, &mut text);
    text.len
}

fn write(rt: &(impl Print + Eprint), text: &[u8]) {
    if let Err(e) = rt.write_all(text) {
        streams::fail(rt, "standard output", &e);
    }
}

fn print_bytes(rt: &(impl Print + Eprint), bytes: &[u8]) {
    let mut text = [0u8; 19220];
    let k = show(bytes, &mut text);
    write(rt, &text[..k]);
}

// Prints what an input says, on standard output. An input that can't be read is no short one: nothing is printed of it, and standard
// error says why, as it does of a write that fails.
pub fn print(rt: &(impl Print + Eprint), input: &mut impl Read, name: &str) {
    let mut bytes = [0u8; INPUT_BYTES];
    match streams::read_full(input, &mut bytes) {
        Ok(n) => print_bytes(rt, &bytes[..n]),
        Err(e) => streams::fail(rt, name, &e),
    }
}
