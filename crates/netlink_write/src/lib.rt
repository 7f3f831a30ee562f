// An event row as a message of rtnetlink, at the front of lent bytes: the headers, then the attributes one behind the other. What lies
// behind the message is kept.
#![tactic(auto)]

ghost use Rattle.std.specs.Prelude.{◌≡◌, ◌+◌, ◌≤◌, ◌<◌, true, length, [], ◌∷◌};
ghost use Rattle.lists.specs.Lists.{put, any};
ghost use Rattle.layout.specs.Address.{fit_address};
ghost use Rattle.layout.specs.Route.{fit_route};
ghost use Rattle.netlink.specs.Codes.{rta_metrics};
ghost use Rattle.netlink_event.specs.Written.{when, written_all};
ghost use Rattle.netlink_event.specs.Writer.{nonzero, address_head, route_head, metric_entries, address_entries, route_entries};
ghost use Rattle.netlink_event.specs.Writer.{type_for, onlink_flag, writes, event_message};
ghost use Rattle.netlink_put.specs.Wrote.{Appends, Adds};
ghost use Rattle.netlink_write.specs.Parts.{label_entry, cacheinfo_entry, body};

use layout::{
    ADDRESS_WORDS, AddressRow, EventRow, METRICS, ROUTE_WORDS, RouteRow, address, event, route,
};
use life::Nanoseconds;
use netlink::codes;
use netlink_put::Writer;
use row_address::V4;

// The index of the loopback, the one device.
const INDEX: u32 = 1;

// Stands in the table's byte for a table that has none (RT_TABLE_COMPAT).
const TABLE_COMPAT: u8 = 252;

// The flag of a route whose gateway is taken to be on the link (RTNH_F_ONLINK).
const ONLINK: u32 = 4;

// ifaddrmsg.
fn address_head(w: &mut Writer, row: &AddressRow)
    requires fit { fit_address row.now ≡ true }
    requires room { w.old.len + 8 ≤ length w.old.out.now }
    ensures { Appends w.old (address_head row.now) w.new }
{
    w.push(&[
        codes::AF_INET,
        row[address::PREFIX] as u8,
        (row[address::FLAGS] % 256) as u8,
        row[address::SCOPE] as u8,
    ]);
    w.push(&INDEX.to_le_bytes());
}

// A label with its closing zero, which is there: the bytes behind a label are 0.
fn label(w: &mut Writer, row: &AddressRow)
    requires fit { fit_address row.now ≡ true }
    requires room { w.old.len + 20 ≤ length w.old.out.now }
    ensures bound { length (written_all (label_entry row.now ∷ [])) ≤ 20 }
    ensures text { Adds w.old (label_entry row.now ∷ []) w.new }
{
    let mut bytes = [0; 16];
    endian::bytes_of(&row[address::LABEL..address::PRIORITY], &mut bytes);
    let end = row[address::LABEL_LENGTH] as usize + 1;
    w.attribute(codes::IFA_LABEL, &bytes[..end]);
}

// What is left of the lifetimes, and no stamps.
fn cacheinfo(w: &mut Writer, row: &AddressRow, clock: u64)
    requires room { w.old.len + 20 ≤ length w.old.out.now }
    ensures bound { length (written_all (cacheinfo_entry clock row.now ∷ [])) ≤ 20 }
    ensures text { Adds w.old (cacheinfo_entry clock row.now ∷ []) w.new }
{
    let left = V4::from(row).left(Nanoseconds(clock));
    let [a, b, c, d] = left.preferred.0.to_le_bytes();
    let [e, f, g, h] = left.valid.0.to_le_bytes();
    w.attribute(
        codes::IFA_CACHEINFO,
        &[a, b, c, d, e, f, g, h, 0, 0, 0, 0, 0, 0, 0, 0],
    );
}

// The attributes of an address.
fn address_attributes(w: &mut Writer, row: &AddressRow, clock: u64)
    requires fit { fit_address row.now ≡ true }
    requires room { w.old.len + 88 ≤ length w.old.out.now }
    ensures bound { length (written_all (address_entries clock row.now)) ≤ 88 }
    ensures text { Adds w.old (address_entries clock row.now) w.new }
{
    w.attribute(codes::IFA_ADDRESS, &row[address::ADDRESS].to_be_bytes());
    w.attribute(codes::IFA_LOCAL, &row[address::LOCAL].to_be_bytes());
    label(w, row);
    w.optional(
        row[address::BROADCAST_PRESENT] == 1,
        codes::IFA_BROADCAST,
        &row[address::BROADCAST].to_be_bytes(),
    );
    cacheinfo(w, row, clock);
    w.attribute(codes::IFA_FLAGS, &row[address::FLAGS].to_le_bytes());
    w.optional(
        row[address::PRIORITY] != 0,
        codes::IFA_RT_PRIORITY,
        &row[address::PRIORITY].to_le_bytes(),
    );
    w.optional(
        row[address::PROTO] != 0,
        codes::IFA_PROTO,
        &[row[address::PROTO] as u8],
    );
}

// The flags of rtmsg.
fn onlink_flag(onlink: u32) -> u32
    ensures { result ≡ onlink_flag onlink }
{
    if onlink == 1 { ONLINK } else { 0 }
}

// rtmsg.
fn route_head(w: &mut Writer, row: &RouteRow)
    requires fit { fit_route row.now ≡ true }
    requires room { w.old.len + 12 ≤ length w.old.out.now }
    ensures { Appends w.old (route_head row.now) w.new }
{
    w.push(&[
        codes::AF_INET,
        row[route::LEN] as u8,
        0,
        row[route::TOS] as u8,
        u8::try_from(row[route::TABLE]).unwrap_or(TABLE_COMPAT),
        row[route::PROTO] as u8,
        row[route::SCOPE] as u8,
        row[route::KIND] as u8,
    ]);
    w.push(&onlink_flag(row[route::ONLINK]).to_le_bytes());
}

// The metrics that aren't 0; type t is the metric of index t - 1.
fn metric_attributes(w: &mut Writer, metrics: &[u32; METRICS])
    requires room { w.old.len + 136 ≤ length w.old.out.now }
    ensures bound { length (written_all (metric_entries metrics.now)) ≤ 136 }
    ensures text { Adds w.old (metric_entries metrics.now) w.new }
{
    for (i, metric) in metrics.iter().enumerate() {
        w.optional(*metric != 0, i + 1, &metric.to_le_bytes());
    }
}

// The same at the front of lent bytes; how many bytes they take.
fn nested(metrics: &[u32; METRICS], out: &mut [u8]) -> usize
    requires { 136 ≤ length out.old }
    ensures bound { result ≤ 136 }
    ensures value { result ≡ length (written_all (metric_entries metrics.now)) }
    ensures out_after { out.new ≡ put 0 (written_all (metric_entries metrics.now)) out.old }
{
    let mut w = Writer::new(out);
    metric_attributes(&mut w, metrics);
    w.len
}

// The attribute that has them, where one isn't 0.
fn metrics(w: &mut Writer, metrics: &[u32; METRICS])
    requires room { w.old.len + 140 ≤ length w.old.out.now }
    ensures bound { length (written_all (when (any nonzero metrics.now) rta_metrics (written_all (metric_entries metrics.now)) ∷ [])) ≤ 140 }
    ensures text { Adds w.old (when (any nonzero metrics.now) rta_metrics (written_all (metric_entries metrics.now)) ∷ []) w.new }
{
    let mut bytes = [0; 136];
    let len = nested(metrics, &mut bytes);
    w.optional(len != 0, codes::RTA_METRICS, &bytes[..len]);
}

// The attributes of a route.
fn route_attributes(w: &mut Writer, row: &RouteRow)
    requires room { w.old.len + 188 ≤ length w.old.out.now }
    ensures bound { length (written_all (route_entries row.now)) ≤ 188 }
    ensures text { Adds w.old (route_entries row.now) w.new }
{
    w.optional(
        row[route::LEN] != 0,
        codes::RTA_DST,
        &row[route::DST].to_be_bytes(),
    );
    w.optional(
        row[route::DEVICE] == 1,
        codes::RTA_OIF,
        &INDEX.to_le_bytes(),
    );
    w.optional(
        row[route::GATEWAY_PRESENT] == 1,
        codes::RTA_GATEWAY,
        &row[route::GATEWAY].to_be_bytes(),
    );
    w.optional(
        row[route::PRIORITY] != 0,
        codes::RTA_PRIORITY,
        &row[route::PRIORITY].to_le_bytes(),
    );
    w.optional(
        row[route::PREFSRC_PRESENT] == 1,
        codes::RTA_PREFSRC,
        &row[route::PREFSRC].to_be_bytes(),
    );
    metrics(w, row.last_chunk::<METRICS>().unwrap());
    w.attribute(codes::RTA_TABLE, &row[route::TABLE].to_le_bytes());
}

// The type of a kind of event.
fn message_type(kind: u32) -> u16
    requires { (1 ≤ kind) × (kind ≤ 4) }
    ensures { result ≡ type_for kind }
{
    match kind {
        event::NEW_ADDR4 => codes::RTM_NEWADDR,
        event::DEL_ADDR4 => codes::RTM_DELADDR,
        event::NEW_ROUTE4 => codes::RTM_NEWROUTE,
        _ => codes::RTM_DELROUTE,
    }
}

// The bytes behind netlink's header.
fn body(w: &mut Writer, event: &EventRow, clock: u64)
    requires fit { writes event.now ≡ true }
    requires room { w.old.len + 200 ≤ length w.old.out.now }
    ensures bound { length (body clock event.now) ≤ 200 }
    ensures text { Appends w.old (body clock event.now) w.new }
{
    let row = &event[event::ROW..];
    if event[event::KIND] <= event::DEL_ADDR4 {
        let row = row.first_chunk::<ADDRESS_WORDS>().unwrap();
        address_head(w, row);
        address_attributes(w, row, clock);
    } else {
        let row = row.first_chunk::<ROUTE_WORDS>().unwrap();
        route_head(w, row);
        route_attributes(w, row);
    }
}

// The message of an event; how many bytes it has. `clock` is when it is written, for what is left of an address's lifetimes.
pub fn write(event: &EventRow, out: &mut [u8], sequence: u32, port: u32, clock: u64) -> usize
    requires fit { writes event.now ≡ true }
    requires room { 216 ≤ length out.old }
    ensures value { result ≡ length (event_message sequence port clock event.now) }
    ensures bound { result ≤ 216 }
    ensures out_after { out.new ≡ put 0 (event_message sequence port clock event.now) out.old }
{
    let mut w = Writer::new(out);
    w.header(
        message_type(event[event::KIND]),
        event[event::FLAGS] as u16,
        sequence,
        port,
    );
    body(&mut w, event, clock);
    w.set_length();
    w.len
}
