// Which requests are fit: every field within its width, and what is absent 0. Of other words than its own a request is unfit.
#![tactic(auto)]

ghost use Rattle.std.specs.Prelude.{◌≡◌, ◌&&◌, leb, ltb, ◌≤◌, length, IfOk};
ghost use Rattle.refusal.specs.Refusal.{Refuses};
ghost use Rattle.layout.specs.Request.{add_v4_size, del_v4_size, add_route4_size, del_route4_size, fit_del_v4, fit_route_words, pairs, fit_pairs, pair_count, fit_add_route4, fit_del_route4};
ghost use Rattle.layout.specs.Address.{optional};
ghost use Rattle.row_address.specs.V4.{optional_of};
ghost use Rattle.definition.specs.Step.{unless, add_v4_refusal, fit_expire};

use layout::{
    ADD_ROUTE4_WORDS, ADD_V4_WORDS, DEL_ROUTE4_WORDS, DEL_V4_WORDS, DelRoute4, add_route4, add_v4,
    address, del_route4, del_v4, route,
};
use life::Nanoseconds;
use refusal::Refusal;
use row_address::Label;

// A type of service is a byte.
pub fn fit_flow(tos: u32) -> Result<(), Refusal>
    ensures { Refuses result (unless (ltb tos 256) 202) }
{
    refusal::unless(tos < 256, Refusal::Unfit)
}

// The mark and the address beside it are words, as the C interface hands them over. Where they are fit, they are handed on as one.
pub fn fit_select(dst_present: u32, dst: u32, scope: u32) -> Result<Option<u32>, Refusal>
    ensures refuses { Refuses result (unless (optional dst_present dst && ltb scope 256) 202) }
    ensures value { IfOk result (λ d. d ≡ optional_of dst_present dst) }
{
    refusal::unless(
        row_address::fit_optional(dst_present, dst) & (scope < 256),
        Refusal::Unfit,
    )?;
    Ok(row_address::optional_of(dst_present, dst))
}

// A second: the greatest allowance of `expire`.
const ALLOWANCE_LIMIT: u64 = 1_000_000_000;

// What a clock and its allowance come to at most.
const CLOCK_LARGEST: u64 = u64::MAX;

pub fn fit_expire(clock: Nanoseconds, allowance: Nanoseconds) -> Result<(), Refusal>
    ensures { Refuses result (unless (fit_expire clock.0 allowance.0) 202) }
{
    let fit = allowance.0 <= ALLOWANCE_LIMIT && clock.0 <= CLOCK_LARGEST - allowance.0;
    refusal::unless(fit, Refusal::Unfit)
}

// A request's fields come first, then what Linux turns down (document 02, Paper 2).
#[tactic(auto, unfolding(layout::specs::Request::fit_add_v4))]
pub fn fit_add_v4(q: &[u32]) -> Result<(), Refusal>
    ensures { length q.now ≡ add_v4_size → Refuses result (add_v4_refusal q.now) }
{
    let Some(q) = q.as_array::<ADD_V4_WORDS>() else {
        return Err(Refusal::Unfit);
    };
    let fit = (q[address::PREFIX] <= 32)
        & row_address::fit_optional(q[address::BROADCAST_PRESENT], q[address::BROADCAST])
        & (q[address::SCOPE] < 256)
        & (q[address::PROTO] < 256)
        & Label::from(q).fits()
        & (q[add_v4::REPLACE] <= 1)
        & (q[add_v4::UP] <= 1);
    let lasts = (q[add_v4::VALID] != 0) & (q[add_v4::PREFERRED] <= q[add_v4::VALID]);
    refusal::unless(fit, Refusal::Unfit)?;
    refusal::unless(lasts, Refusal::Errno(layout::INVALID))
}

#[tactic(auto, unfolding(layout::specs::Request::fit_del_v4))]
pub fn fit_del_v4(q: &[u32]) -> Result<(), Refusal>
    ensures { length q.now ≡ del_v4_size → Refuses result (unless (fit_del_v4 q.now) 202) }
{
    let q = q.as_array::<DEL_V4_WORDS>().ok_or(Refusal::Unfit)?;
    let fit = (q[del_v4::PREFIX] <= 32)
        & row_address::fit_optional(q[del_v4::LOCAL_PRESENT], q[del_v4::LOCAL])
        & row_address::fit_optional(q[del_v4::ADDRESS_PRESENT], q[del_v4::ADDRESS])
        & row_address::fit_optional(q[del_v4::LABEL_PRESENT], q[del_v4::LABEL_LENGTH])
        & Label::from(q).fits();
    refusal::unless(fit, Refusal::Unfit)
}

// What both requests for a route ask of its first 12 words. A slice, since they have two lengths: with `&[u32; 12]` each caller passes
// `q.first_chunk().unwrap()`, and that of `fit_add_route4` needs a lemma on the words left out, and an answer.
fn fit_route_words(q: &[u32]) -> bool
    requires { 12 ≤ length q.now }
    ensures { result ≡ fit_route_words q.now }
{
    (q[route::LEN] < 256)
        & (q[route::TOS] < 256)
        & (q[route::KIND] < 256)
        & (q[route::PROTO] < 256)
        & (q[route::SCOPE] < 256)
        & row_address::fit_optional(q[route::PREFSRC_PRESENT], q[route::PREFSRC])
        & row_address::fit_optional(q[route::GATEWAY_PRESENT], q[route::GATEWAY])
}

// The largest number of Linux's errno list.
const GREATEST_ERRNO: u32 = 133;

#[tactic(auto, unfolding(layout::specs::Request::fit_add_route4))]
pub fn fit_add_route4(q: &[u32]) -> Result<(), Refusal>
    ensures { length q.now ≡ add_route4_size → Refuses result (unless (fit_add_route4 q.now) 202) }
{
    let q = q.as_array::<ADD_ROUTE4_WORDS>().ok_or(Refusal::Unfit)?;
    let fit = fit_route_words(q)
        & (q[add_route4::REQUEST] < 65536)
        & (q[add_route4::METRICS_ERROR] <= GREATEST_ERRNO)
        & (q[add_route4::UP] <= 1);
    refusal::unless(fit, Refusal::Unfit)
}

// The pairs up to the count, each an index of the metrics and the value that a route must have there.
pub fn pairs(q: &DelRoute4) -> &[[u32; 2]]
    requires { pair_count q.now ≤ 17 }
    ensures { result.now ≡ pairs q.now }
{
    let (all, _) = q[del_route4::PAIRS..].as_chunks::<2>();
    &all[..q[del_route4::PAIR_COUNT] as usize]
}

// Each names one of the 17 metrics.
fn fit_pairs(q: &DelRoute4) -> bool
    requires { pair_count q.now ≤ 17 }
    ensures { result ≡ fit_pairs q.now }
{
    pairs(q).iter().all(|pair| pair[0] <= 16)
}

// The count is looked at before the pairs that it counts.
#[tactic(auto, unfolding(layout::specs::Request::fit_del_route4))]
pub fn fit_del_route4(q: &[u32]) -> Result<(), Refusal>
    ensures { length q.now ≡ del_route4_size → Refuses result (unless (fit_del_route4 q.now) 202) }
{
    let q = q.as_array::<DEL_ROUTE4_WORDS>().ok_or(Refusal::Unfit)?;
    let fields = fit_route_words(q)
        & row_address::fit_optional(q[del_route4::LIST_PRESENT], q[del_route4::PAIR_COUNT]);
    let counted = q[del_route4::PAIR_COUNT] <= 17 && fit_pairs(q);
    refusal::unless(fields && counted, Refusal::Unfit)
}
