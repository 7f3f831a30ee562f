// An IPv4 address: its record, read from a row of words, and the methods that take it by value.
#![tactic(auto)]

ghost use Rattle.std.specs.Prelude.{◌≡◌, ℕ, true, ◌+◌, ◌-◌, ◌*◌, ◌^◌, get_or};
ghost use Rattle.std.specs.Option.{is_some, IfSome};
ghost use Rattle.prefix.specs.Mask.{mask};
ghost use Rattle.layout.specs.Flags.{has_bit, set_bit, clear_bit};
ghost use Rattle.layout.specs.Address.{optional, fit_label, fit_address};
ghost use Rattle.definition.specs.Reference.Addresses.{life_flags};
ghost use Rattle.definition.specs.Step.{left_call};
ghost use Rattle.row_address.specs.V4.{v4_of, optional_of, label_from, label_of, label_asked, life_of, secondary_v4, covers_v4, set_life_v4, left_v4};
ghost use Rattle.row_address.specs.Words.{row_of};
ghost use Rattle.row_address.specs.Row.{word_ends, left_reply, reply_of};

use layout::{ADDRESS_WORDS, AddV4, AddressRow, DelV4, address, del_v4};
use life::{Left, Life, Lifetimes, Nanoseconds, Seconds};
use refusal::Refusal;

// The flags of an address that the kernel keeps (rtnetlink's IFA_F_*).
pub const SECONDARY: u32 = 0x01;

pub const DEPRECATED: u32 = 0x20;

pub const PERMANENT: u32 = 0x80;

// Flags: words in which one bit is set, of which `flags` is any number. Whether one is there; with it; without it.
pub fn has(flags: u32, flag: u32) -> bool
    ensures { (k : ℕ) → flag ≡ 2 ^ k → result ≡ has_bit k flags }
{
    flags & flag != 0
}

pub fn set(flags: u32, flag: u32) -> u32
    ensures { (k : ℕ) → flag ≡ 2 ^ k → result ≡ set_bit k flags }
{
    flags | flag
}

pub fn clear(flags: u32, flag: u32) -> u32
    ensures { (k : ℕ) → flag ≡ 2 ^ k → result ≡ clear_bit k flags }
{
    flags & !flag
}

// Sixteen bytes, little-endian, of which the first `len` are the label.
#[derive(Clone, Copy, Debug, PartialEq, Eq)]
pub struct Label {
    pub len: u32,
    pub words: [u32; 4],
}

#[derive(Clone, Copy, Debug, PartialEq, Eq)]
pub struct V4 {
    pub local: u32,
    pub address: u32,
    pub prefix: u32,
    pub broadcast: Option<u32>,
    pub scope: u32,
    pub flags: u32,
    pub proto: u32,
    pub label: Label,
    // The metric of its prefix route.
    pub priority: u32,
    pub life: Life,
}

// A valid lifetime that never ends makes an address permanent, a preferred one of 0 deprecated.
#[tactic(auto, unfolding(definition::specs::Reference::Addresses::life_flags))]
pub fn life_flags(flags: u32, valid: u32, preferred: u32) -> u32
    ensures { result ≡ life_flags valid preferred flags }
{
    let mut kept = clear(clear(flags, PERMANENT), DEPRECATED);
    if valid == life::FOREVER {
        kept = set(kept, PERMANENT);
    }
    if preferred == 0 {
        kept = set(kept, DEPRECATED);
    }
    kept
}

impl V4 {
    // It is given `lifetimes` at `now`.
    pub fn set_life(self, lifetimes: Lifetimes, now: Nanoseconds) -> V4
        ensures { result ≡ set_life_v4 lifetimes now.0 self }
    {
        V4 {
            flags: life_flags(self.flags, lifetimes.valid.0, lifetimes.preferred.0),
            life: self.life.set(lifetimes, now),
            ..self
        }
    }

    // A prefix over 32 counts as 32.
    pub fn mask(self) -> u32
        ensures { result ≡ mask self.prefix }
    {
        prefix::mask4(self.prefix)
    }

    // Whether `ip` is in its subnet. By value, as document 01 asks; rows and records alike are asked by row_subnet.
    pub fn covers(self, ip: u32) -> bool
        ensures { result ≡ covers_v4 self ip }
    {
        prefix::same_network(ip, self.address, self.prefix)
    }

    pub fn secondary(self) -> bool
        ensures { result ≡ secondary_v4 self }
    {
        has(self.flags, SECONDARY)
    }

    // The lifetimes that it has left: forever while permanent.
    pub fn left(self, now: Nanoseconds) -> Left
        ensures { result ≡ left_v4 self now.0 }
    {
        if has(self.flags, PERMANENT) {
            return Left {
                preferred: Seconds(life::FOREVER),
                valid: Seconds(life::FOREVER),
            };
        }
        self.life.left(now)
    }
}

// Its row, from which it is read again.
impl From<V4> for AddressRow {
    ghost from_gives = { λ v row. (row ≡ row_of v) × (v4_of row ≡ v) };

    fn from(v: V4) -> AddressRow {
        let life = <[u32; 6]>::from(v.life);
        [
            v.local,
            v.address,
            v.prefix,
            u32::from(v.broadcast.is_some()),
            v.broadcast.unwrap_or(0),
            v.scope,
            v.flags,
            v.proto,
            v.label.len,
            v.label.words[0],
            v.label.words[1],
            v.label.words[2],
            v.label.words[3],
            v.priority,
            life[0],
            life[1],
            life[2],
            life[3],
            life[4],
            life[5],
        ]
    }
}

// The value beside a mark. A pair and an `Option` are the library's, so this is no `From`.
pub fn optional_of(present: u32, value: u32) -> Option<u32>
    ensures { result ≡ optional_of present value }
{
    (present == 1).then_some(value)
}

// A label's length and its four words, as rows and requests have them side by side.
impl From<[u32; 5]> for Label {
    ghost from_gives = { λ w l. l ≡ label_from w };

    fn from([len, first, second, third, fourth]: [u32; 5]) -> Label {
        Label {
            len,
            words: [first, second, third, fourth],
        }
    }
}

impl From<&AddressRow> for Label {
    ghost from_gives = { λ row l. l ≡ label_of row.now };

    fn from(row: &AddressRow) -> Label {
        Label::from(*row[address::LABEL_LENGTH..].first_chunk::<5>().unwrap())
    }
}

// The labels that requests name.
impl From<&AddV4> for Label {
    ghost from_gives = { λ q l. l ≡ label_of q.now };

    fn from(q: &AddV4) -> Label {
        Label::from(*q[address::LABEL_LENGTH..].first_chunk::<5>().unwrap())
    }
}

impl From<&DelV4> for Label {
    ghost from_gives = { λ q l. l ≡ label_asked q.now };

    fn from(q: &DelV4) -> Label {
        Label::from(*q[del_v4::LABEL_LENGTH..].first_chunk::<5>().unwrap())
    }
}

// The life of a row, whose last six words it is. Both types are other crates', so this is no `From`.
pub fn life_of(row: &AddressRow) -> Life
    ensures { result ≡ life_of row.now }
{
    Life::from(*row.last_chunk::<6>().unwrap())
}

// The record of a row; of one that could stand in a well-formed state it gives the row again.
impl From<&AddressRow> for V4 {
    ghost from_gives = { λ row v. (v ≡ v4_of row.now) × (fit_address row.now ≡ true → row_of v ≡ row.now) };

    fn from(row: &AddressRow) -> V4 {
        V4 {
            local: row[address::LOCAL],
            address: row[address::ADDRESS],
            prefix: row[address::PREFIX],
            broadcast: optional_of(row[address::BROADCAST_PRESENT], row[address::BROADCAST]),
            scope: row[address::SCOPE],
            flags: row[address::FLAGS],
            proto: row[address::PROTO],
            label: Label::from(row),
            priority: row[address::PRIORITY],
            life: life_of(row),
        }
    }
}

// Whether the bytes of a word are 0 from the `n`th on.
fn ends(word: u32, n: u32) -> bool
    ensures { result ≡ word_ends word n }
{
    u64::from(word) >> (8 * n.min(4)) == 0
}

impl Label {
    // Whether it has at most 15 bytes, with zeros after it.
    pub fn fits(self) -> bool
        ensures { result ≡ fit_label self.len (get_or self.words 0 0 + get_or self.words 1 0 * 2 ^ 32 + get_or self.words 2 0 * 2 ^ 64 + get_or self.words 3 0 * 2 ^ 96) }
    {
        let n = self.len;
        (n <= 15)
            & ends(self.words[0], n)
            & ends(self.words[1], n.saturating_sub(4))
            & ends(self.words[2], n.saturating_sub(8))
            & ends(self.words[3], n.saturating_sub(12))
    }
}

// Whether a value may stand beside its mark: any beside 1, only 0 beside 0.
pub fn fit_optional(present: u32, value: u32) -> bool
    ensures { result ≡ optional present value }
{
    (present == 1) | ((present == 0) & (value == 0))
}

// The row, if it could stand in a well-formed state. The tests have no branches between them, since rows are asked one after another.
#[tactic(auto, unfolding(layout::specs::Address::fit_address))]
pub fn fit_address(row: &[u32]) -> Option<&AddressRow>
    ensures fits { is_some result ≡ fit_address row.now }
    ensures same { IfSome result (λ r. r.now ≡ row.now) }
{
    let row = row.as_array::<ADDRESS_WORDS>()?;
    let fit = (row[address::PREFIX] <= 32)
        & fit_optional(row[address::BROADCAST_PRESENT], row[address::BROADCAST])
        & (row[address::SCOPE] < 256)
        & (row[address::PROTO] < 256)
        & Label::from(row).fits();
    fit.then_some(row)
}

// What is left of the lifetimes of an address, handed over as any row of words.
pub fn left(row: &[u32], clock: u64) -> Result<Left, Refusal>
    ensures value { result ≡ left_reply row.now clock }
    ensures result_value { reply_of result ≡ left_call row.now clock }
{
    let row = fit_address(row).ok_or(Refusal::Malformed)?;
    Ok(V4::from(row).left(Nanoseconds(clock)))
}
