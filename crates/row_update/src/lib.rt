// The address rows that requests and changes make.
#![tactic(auto)]

ghost use Rattle.std.specs.Prelude.{◌≡◌, ℕ, ◌^◌};
ghost use Rattle.layout.specs.Flags.{set_bit};
ghost use Rattle.layout.specs.Address.{flags, set_flags};
ghost use Rattle.layout.specs.Request.{valid_asked, preferred_asked};
ghost use Rattle.definition.specs.Reference.Addresses.{set_life, asked, as_secondary, changed_to};
ghost use Rattle.definition.specs.Reference.Removal.{deprecate};

use layout::{ADDRESS_WORDS, AddV4, AddressRow, add_v4, address};
use life::{Lifetimes, Nanoseconds, Seconds};

// The words that a request to add an address and its row share.
const SHARED: usize = 14;

// The row with a flag.
fn flagged(a: &AddressRow, flag: u32) -> AddressRow
    ensures { (k : ℕ) → flag ≡ 2 ^ k → result ≡ set_flags (set_bit k (flags a.now)) a.now }
{
    let mut row = *a;
    row[address::FLAGS] = row_address::set(row[address::FLAGS], flag);
    row
}

// The row with the lifetimes that a request asks for at that moment.
#[tactic(auto, unfolding(definition::specs::Reference::Addresses::set_life))]
fn set_life(mut row: AddressRow, q: &AddV4, clock: Nanoseconds) -> AddressRow
    ensures { result ≡ set_life (valid_asked q.now) (preferred_asked q.now) clock.0 row }
{
    let lifetimes = Lifetimes {
        valid: Seconds(q[add_v4::VALID]),
        preferred: Seconds(q[add_v4::PREFERRED]),
    };
    let life = row_address::life_of(&row).set(lifetimes, clock);
    row[address::FLAGS] = row_address::life_flags(
        row[address::FLAGS],
        q[add_v4::VALID],
        q[add_v4::PREFERRED],
    );
    // Word by word: with `copy_from_slice` or `last_chunk_mut` of `<[u32; 6]>::from(life)` the check finds no proof by itself.
    row[address::VALID] = life.valid.0;
    row[address::PREFERRED] = life.preferred.0;
    let [changed, changed_high] = <[u32; 2]>::from(clock);
    row[address::CHANGED] = changed;
    row[address::CHANGED_HIGH] = changed_high;
    row
}

// The row that a request asks for, made at that moment. No `From`: an array from a request and a clock, which are other crates' types.
#[tactic(auto, unfolding(definition::specs::Reference::Addresses::asked, lists::specs::Lists::zeros))]
pub fn asked(q: &AddV4, clock: Nanoseconds) -> AddressRow
    ensures { result ≡ asked q.now clock.0 }
{
    let mut row = [0; ADDRESS_WORDS];
    row[..SHARED].copy_from_slice(&q[..SHARED]);
    row[address::FLAGS] = row_address::clear(row[address::FLAGS], row_address::SECONDARY);
    row = set_life(row, q, clock);
    let [created, created_high] = <[u32; 2]>::from(clock);
    row[address::CREATED] = created;
    row[address::CREATED_HIGH] = created_high;
    row
}

// An address with the priority, proto and lifetimes of a request.
#[tactic(auto, unfolding(definition::specs::Reference::Addresses::changed_to))]
pub fn changed_to(q: &AddV4, old: &AddressRow, clock: Nanoseconds) -> AddressRow
    ensures { result ≡ changed_to q.now old.now clock.0 }
{
    let mut row = *old;
    row[address::PRIORITY] = q[address::PRIORITY];
    row[address::PROTO] = q[address::PROTO];
    set_life(row, q, clock)
}

// The row as a secondary.
#[tactic(auto, unfolding(definition::specs::Reference::Addresses::as_secondary))]
pub fn as_secondary(a: &AddressRow) -> AddressRow
    ensures { result ≡ as_secondary a.now }
{
    flagged(a, row_address::SECONDARY)
}

// The row marked as deprecated.
#[tactic(auto, unfolding(definition::specs::Reference::Removal::deprecate))]
pub fn deprecate(a: &AddressRow) -> AddressRow
    ensures { result ≡ deprecate a.now }
{
    flagged(a, row_address::DEPRECATED)
}
