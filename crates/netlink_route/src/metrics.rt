// A list of metrics: the last of each type.
ghost use Rattle.std.specs.Prelude.{◌≡◌, ◌+◌, ◌≤◌, ◌<◌, unwrap_or, length};
ghost use Rattle.lists.specs.Lists.{put};

use layout::{INVALID, METRICS};
use netlink::codes;
use netlink_attributes::fields::Fields;
use netlink_attributes::{Attribute, bytes};

#[derive(Clone, Copy)]
pub struct Metrics {
    // Type t stands at t - 1.
    pub values: [Option<u32>; METRICS],
    // One of a type above 17 is there.
    pub has_unknown: bool,
    // Every metric has four bytes.
    pub is_sized: bool,
}

impl Fields for Metrics {
    ghost use Rattle.netlink_route.specs.MetricSteps.{metrics_step};

    ghost step = { metrics_step };

    #[inline(always)]
    fn take(&mut self, a: Attribute) {
        if codes::RTAX_MAX < a.code {
            self.has_unknown = true;
        } else if 1 <= a.code {
            match bytes::number(a.payload) {
                Some(n) => self.values[a.code - 1] = Some(n),
                None => self.is_sized = false,
            }
        }
    }
}

impl Metrics {
    ghost use Rattle.netlink_route.specs.MetricSteps.{fresh, slot};
    ghost use Rattle.netlink_route.specs.MetricWords.{metric_row, pair_row, number_pair};

    pub fn new() -> Self
        ensures { result ≡ fresh }
    {
        Metrics {
            values: [None; METRICS],
            has_unknown: false,
            is_sized: true,
        }
    }

    // The metric of a type, 0 where it is not there.
    #[inline(always)]
    fn number(&self, k: usize) -> u32
        requires { (1 ≤ k) × (k < 18) }
        ensures { result ≡ unwrap_or (slot self.now.values k) 0 }
    {
        self.values[k - 1].unwrap_or(0)
    }

    // The metrics' error, and the 17 metrics.
    #[inline(always)]
    pub fn words(&self) -> [u32; 18]
        ensures { result ≡ metric_row self.now }
    {
        if self.has_unknown {
            return [INVALID, 0, 0, 0, 0, 0, 0, 0, 0, 0, 0, 0, 0, 0, 0, 0, 0, 0];
        }
        [
            0,
            self.number(1),
            self.number(2),
            self.number(3),
            self.number(4),
            self.number(5),
            self.number(6),
            self.number(7),
            self.number(8),
            self.number(9),
            self.number(10),
            self.number(11),
            self.number(12),
            self.number(13),
            self.number(14),
            self.number(15),
            self.number(16),
            self.number(17),
        ]
    }

    // A metric that is there, as a pair of its index and its value at a place; the place behind it.
    #[inline]
    fn append(&self, k: usize, words: &mut [u32], at: usize) -> usize
        requires { (1 ≤ k) × (k < 18) × (at + 2 ≤ length words.old) }
        ensures value { result ≡ at + length (number_pair k (slot self.now.values k)) }
        ensures words_after { words.new ≡ put at (number_pair k (slot self.now.values k)) words.old }
    {
        let Some(n) = self.values[k - 1] else {
            return at;
        };
        words::store(words, at, &[(k - 1) as u32, n]);
        at + 2
    }

    // Whether there is a list, the number of its pairs and the pairs.
    #[inline]
    pub fn pairs(&self, words: &mut [u32])
        requires { length words.old ≡ 36 }
        ensures { words.new ≡ pair_row self.now }
    {
        words::clear(words, 0, 36);
        if self.has_unknown {
            return;
        }
        // Counted by hand, since only the metrics that are there take a place.
        let mut at = 2;
        for k in 1..=codes::RTAX_MAX {
            at = self.append(k, words, at);
        }
        words[0] = 1;
        words[1] = (at / 2 - 1) as u32;
    }
}
