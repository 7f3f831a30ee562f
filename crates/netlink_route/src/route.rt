// A route, new or to delete.
ghost use Rattle.std.specs.Prelude.{◌≡◌, ◌≢◌, ◌≤◌, ◌&&◌, [], ◌∷◌, cond, IfOk, length};
ghost use Rattle.std.specs.List.{fold};
ghost use Rattle.lists.specs.Lists.{all, put, zeros};
ghost use Rattle.refusal.specs.Refusal.{Refuses};
ghost use Rattle.netlink.specs.Attributes.{attributes, right};
ghost use Rattle.netlink.specs.Codes.{rtm_new_route, rta_metrics};
ghost use Rattle.netlink.specs.Reader.{u32, message_flags, family, nested_right, sized_in};
ghost use Rattle.netlink_attributes.specs.Steps.{shown};
ghost use Rattle.netlink_refusal.specs.Order.{judged};

use crate::Metrics;
use netlink::codes;
use netlink_attributes::fields::walk;
use netlink_attributes::{Attribute, Attributes, bytes};
use netlink_refusal::Message;
use refusal::Refusal;

// rtmsg's flags, and the header's.
#[inline]
fn flags(m: &[u8]) -> [u32; 2]
    requires { 28 ≤ length m.now }
    ensures { result ≡ u32 m.now 24 ∷ message_flags m.now ∷ [] }
{
    [
        u32::from_le_bytes([m[24], m[25], m[26], m[27]]),
        u32::from(u16::from_le_bytes([m[6], m[7]])),
    ]
}

// The fields but for the metrics, which stand beside them: an array that is written by index would keep these in memory.
#[derive(Clone, Copy)]
pub struct Route {
    pub table: u32,
    pub dst: u32,
    pub oif: u32,
    pub priority: u32,
    pub gateway: Option<u32>,
    pub prefsrc: Option<u32>,
    pub has_metrics: bool,
    // Every length inside the metrics is right.
    pub is_right: bool,
    // Every attribute with a field has its size.
    pub is_sized: bool,
}

impl Route {
    ghost use Rattle.netlink_route.specs.Steps.{route_step, route_begun, list_step};
    ghost use Rattle.netlink_route.specs.MetricWords.{metric_row, pair_row};
    ghost use Rattle.netlink_route.specs.Words.{route_row, new_route_row, del_route_row};

    // As they stand before any attribute.
    fn begun(m: &[u8]) -> Self
        requires { 28 ≤ length m.now }
        ensures { result ≡ route_begun m.now }
    {
        Route {
            table: u32::from(m[20]),
            dst: 0,
            oif: 0,
            priority: 0,
            gateway: None,
            prefsrc: None,
            has_metrics: false,
            is_right: true,
            is_sized: true,
        }
    }

    #[inline(always)]
    fn take(&mut self, a: Attribute)
        requires { a.code ≢ rta_metrics }
        ensures { self.new ≡ route_step self.old (shown a.entry) }
    {
        match a.code {
            codes::RTA_DST => match bytes::address(a.payload) {
                Some(n) => self.dst = n,
                None => self.is_sized = false,
            },
            codes::RTA_OIF => match bytes::number(a.payload) {
                Some(n) => self.oif = n,
                None => self.is_sized = false,
            },
            codes::RTA_GATEWAY => match bytes::address(a.payload) {
                Some(n) => self.gateway = Some(n),
                None => self.is_sized = false,
            },
            codes::RTA_PRIORITY => match bytes::number(a.payload) {
                Some(n) => self.priority = n,
                None => self.is_sized = false,
            },
            codes::RTA_PREFSRC => match bytes::address(a.payload) {
                Some(n) => self.prefsrc = Some(n),
                None => self.is_sized = false,
            },
            codes::RTA_TABLE => match bytes::number(a.payload) {
                Some(n) => self.table = n,
                None => self.is_sized = false,
            },
            _ => {}
        }
    }

    // What a list of metrics says of itself: of several, the last has the values, but every one is looked at.
    #[inline(always)]
    fn take_metrics(&mut self, payload: &[u8], metrics: &mut Metrics)
        ensures route { self.new ≡ route_step self.old (record { code = rta_metrics; payload = payload.now }) }
        ensures metrics { metrics.new ≡ list_step metrics.old (record { code = rta_metrics; payload = payload.now }) }
    {
        *metrics = Metrics::new();
        let is_right = walk(payload, metrics);
        self.has_metrics = true;
        self.is_right &= is_right;
        self.is_sized &= metrics.is_sized;
    }

    // All attributes in one pass.
    #[inline(always)]
    pub fn read(message: Message, metrics: &mut Metrics) -> Result<Self, Refusal>
        requires { 28 ≤ length message.bytes.now }
        ensures refuses { Refuses result (judged (family message.entry.bytes.now)
            (right message.entry.body.now && all nested_right (attributes message.entry.body.now))
            (all (sized_in rtm_new_route) (attributes message.entry.body.now))) }
        ensures route { IfOk result (λ s. s ≡ fold route_step (route_begun message.entry.bytes.now) (attributes message.entry.body.now)) }
        ensures metrics { metrics.new ≡ fold list_step metrics.old (attributes message.entry.body.now) }
    {
        let mut route = Route::begun(message.bytes);
        let mut attributes = Attributes::of(message.body);
        while let Some(a) = attributes.next() {
            if a.code == codes::RTA_METRICS {
                route.take_metrics(a.payload, metrics);
            } else {
                route.take(a);
            }
        }
        message.judge(attributes.is_short() & route.is_right, route.is_sized)?;
        Ok(route)
    }

    // The words that both requests begin with.
    #[inline(always)]
    fn words(&self, m: &[u8]) -> [u32; 13]
        requires { 28 ≤ length m.now }
        ensures { result ≡ route_row m.now self.now }
    {
        [
            self.table,
            self.dst,
            u32::from(m[17]),
            u32::from(m[19]),
            self.priority,
            u32::from(m[23]),
            u32::from(m[21]),
            u32::from(m[22]),
            u32::from(self.prefsrc.is_some()),
            self.prefsrc.unwrap_or(0),
            u32::from(self.gateway.is_some()),
            self.gateway.unwrap_or(0),
            self.oif,
        ]
    }

    // The metrics of a new route: no list is an empty one.
    #[inline(always)]
    fn metric_words(&self, metrics: &Metrics) -> [u32; 18]
        ensures { result ≡ cond self.now.has_metrics (metric_row metrics.now) (zeros 18) }
    {
        if self.has_metrics {
            metrics.words()
        } else {
            [0; 18]
        }
    }

    // Those of a route to delete.
    #[inline(always)]
    fn pairs(&self, metrics: &Metrics, words: &mut [u32])
        requires { length words.old ≡ 36 }
        ensures { words.new ≡ cond self.now.has_metrics (pair_row metrics.now) (1 ∷ zeros 35) }
    {
        if self.has_metrics {
            metrics.pairs(words);
        } else {
            words::clear(words, 0, 36);
            words[0] = 1;
        }
    }

    // The request of a new route, at the front of the lent words.
    #[inline(always)]
    pub fn write_new(&self, metrics: &Metrics, m: &[u8], up: u32, words: &mut [u32])
        requires { (28 ≤ length m.now) × (34 ≤ length words.old) }
        ensures { words.new ≡ put 0 (new_route_row up m.now self.now metrics.now) words.old }
    {
        words::store(words, 0, &self.words(m));
        words::store(words, 13, &flags(m));
        words::store(words, 15, &self.metric_words(metrics));
        words::store(words, 33, &[up]);
    }

    // The request of a route to delete.
    #[inline(always)]
    pub fn write_deleted(&self, metrics: &Metrics, m: &[u8], words: &mut [u32])
        requires { (28 ≤ length m.now) × (49 ≤ length words.old) }
        ensures { words.new ≡ put 0 (del_route_row m.now self.now metrics.now) words.old }
    {
        words::store(words, 0, &self.words(m));
        self.pairs(metrics, &mut words[13..49]);
    }
}
