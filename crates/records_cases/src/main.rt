// What `select4` and `primary_of` answer over records, and over the words of a state that holds the same addresses: a line for each
// case, with both answers.
#![tactic(auto)]

ghost use Rattle.std.specs.Prelude.{◌≤◌};

use layout::{ADDRESS_COUNT, ADDRESS_WORDS, ADDRESSES_AT, AddressRow, STATE_WORDS, address};
use refusal::Refusal;
use row_address::V4;
use std::fmt;
use std::net::Ipv4Addr;

// An answer as a line shows it.
#[derive(Clone, Copy)]
struct Answer(Result<Option<u32>, Refusal>);

impl fmt::Display for Answer {
    fn fmt<W: fmt::Write>(&self, f: &mut fmt::Formatter<W>) -> fmt::Result {
        match self.0 {
            Ok(Some(ip)) => write!(f, "{}", Ipv4Addr::from(ip)),
            Ok(None) => f.write_str("none"),
            Err(refusal) => write!(f, "{refusal}"),
        }
    }
}

fn row(local: u32, address: u32, prefix: u32, scope: u32, flags: u32) -> AddressRow {
    let mut row = [0; ADDRESS_WORDS];
    row[address::LOCAL] = local;
    row[address::ADDRESS] = address;
    row[address::PREFIX] = prefix;
    row[address::SCOPE] = scope;
    row[address::FLAGS] = flags;
    row
}

// The words of a state that has the addresses.
fn state<const N: usize>(rows: &[AddressRow; N]) -> [u32; STATE_WORDS]
    requires { N ≤ 64 }
{
    let mut s = [0; STATE_WORDS];
    s[ADDRESS_COUNT] = N as u32;
    words::store(&mut s, ADDRESSES_AT, rows.as_flattened());
    s
}

fn select<const N: usize>(
    rt: &impl Print,
    name: &str,
    rows: &[AddressRow; N],
    dst: Option<u32>,
    scope: u32,
)
    requires { N ≤ 64 }
{
    let records = rows.map(|row| V4::from(&row));
    let present = u32::from(dst.is_some());
    let one = call_records::select4(&records, dst, scope);
    let other = call_records::select4_words(&state(rows), present, dst.unwrap_or(0), scope);
    let _ = println!(rt; "{name}: {} {}", Answer(Ok(one)), Answer(other));
}

fn primary<const N: usize>(rt: &impl Print, name: &str, rows: &[AddressRow; N], a: AddressRow)
    requires { N ≤ 64 }
{
    let records = rows.map(|row| V4::from(&row));
    let one = call_records::primary_of(&records, V4::from(&a));
    let other = call_records::primary_of_words(&state(rows), &a);
    let _ = println!(rt;
        "{name}: {} {}",
        Answer(Ok(Some(one))),
        Answer(other.map(Some))
    );
}

// 10.1.0.5/24, 10.2.0.5/24 and 10.2.0.6/24, the last a secondary.
// This and `other` are data, so they stay two.
fn three() -> [AddressRow; 3] {
    [
        row(0x0a010005, 0x0a010005, 24, 0, 0),
        row(0x0a020005, 0x0a020005, 24, 0, 0),
        row(0x0a020006, 0x0a020006, 24, 0, 1),
    ]
}

// The first of them a secondary, the second of link scope, the third a peer's of 10.9.0.0/24.
fn other() -> [AddressRow; 3] {
    [
        row(0x0a010005, 0x0a010005, 24, 0, 1),
        row(0x0a020005, 0x0a020005, 24, 253, 0),
        row(0x0a030005, 0x0a090005, 24, 0, 0),
    ]
}

fn selects(rt: &impl Print) {
    let [a, b, c] = three();
    select(rt, "none there", &[], None, 0);
    for (name, dst) in [
        ("two, no destination", None),
        ("two, a destination of the first", Some(0x0a010063)),
        ("two, a destination of the second", Some(0x0a020063)),
        ("two, a destination of neither", Some(0x0a030063)),
    ] {
        select(rt, name, &[a, b], dst, 0);
    }
    let near = Some(0x0a020006);
    select(rt, "a destination of a secondary too", &[a, b, c], near, 0);
    for (name, dst, scope) in [
        ("a destination of a secondary alone", Some(0x0a010063), 0),
        ("a secondary first, scope 252", None, 252),
        ("a secondary first, scope 253", None, 253),
        ("by the peer's subnet", Some(0x0a090063), 253),
        ("not by the local address's", Some(0x0a030063), 253),
    ] {
        select(rt, name, &other(), dst, scope);
    }
}

fn primaries(rt: &impl Print) {
    let three = three();
    primary(
        rt,
        "a primary",
        &three,
        row(0x0a010005, 0x0a010005, 24, 0, 0),
    );
    primary(
        rt,
        "a secondary of the second",
        &three,
        row(0x0a020006, 0x0a020006, 24, 0, 1),
    );
    primary(
        rt,
        "a secondary of none",
        &three,
        row(0x0a030006, 0x0a030006, 24, 0, 1),
    );
    primary(
        rt,
        "a secondary of another prefix",
        &three,
        row(0x0a020006, 0x0a020006, 25, 0, 1),
    );
    primary(
        rt,
        "a secondary beside secondaries",
        &other(),
        row(0x0a010006, 0x0a010006, 24, 0, 1),
    );
    primary(
        rt,
        "a secondary by its peer",
        &three,
        row(0x0a010007, 0x0a020007, 24, 0, 1),
    );
    primary(
        rt,
        "a secondary where none is",
        &[],
        row(0x0a020006, 0x0a020006, 24, 0, 1),
    );
}

// What only words can be: a state or a row that isn't one.
fn refusals(rt: &impl Print) {
    let s = state(&three());
    let a = row(0x0a020006, 0x0a020006, 24, 0, 1);
    let chosen = Answer(call_records::select4_words(&s[1..], 0, 0, 0));
    let primary = Answer(call_records::primary_of_words(&s[1..], &a).map(Some));
    let _ = println!(rt; "a state without its first word: {chosen} {primary}");
    let primary = Answer(call_records::primary_of_words(&s, &a[1..]).map(Some));
    let _ = println!(rt; "a row of 19 words: {primary}");
    let chosen = Answer(call_records::select4_words(&s, 0, 0, 256));
    let _ = println!(rt; "a scope of 256: {chosen}");
}

fn main(rt: HostRuntime) {
    selects(&rt);
    primaries(&rt);
    refusals(&rt);
}
