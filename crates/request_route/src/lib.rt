// What a request for a route asks for, by its words alone.
#![tactic(auto)]

ghost use Rattle.std.specs.Prelude.{◌≡◌, cond, ◌≤◌, length, eqb};
ghost use Rattle.definition.specs.Reference.Routes.{table_named, bad_prefix, dead_flags, onlink_flag, unsupported, form_check, asked_route};
ghost use Rattle.refusal.specs.Refusal.{unless};
ghost use Rattle.refusal.specs.declared.Refusal.TheVariants.{Errno};

use layout::{AddRoute4, ROUTE_WORDS, RouteRow, add_route4, route};
use refusal::{Refusal, unless};
use row_address::has;

// Table 0 is 254. A slice of at least the words that both requests begin with, since one to add and one to delete differ in length.
pub fn table_named(q: &[u32]) -> u32
    requires { 12 ≤ length q.now }
    ensures { result ≡ table_named q.now }
{
    if q[route::TABLE] == 0 {
        return layout::TABLE_MAIN;
    }
    q[route::TABLE]
}

// A length over 32, or bits outside it.
pub fn bad_prefix(q: &[u32]) -> bool
    requires { 12 ≤ length q.now }
    ensures { result ≡ bad_prefix q.now }
{
    32 < q[route::LEN] || prefix::host_bits4(q[route::DST], q[route::LEN]) != 0
}

// No request may set RTNH_F_DEAD or RTNH_F_LINKDOWN.
fn dead_flags(q: &AddRoute4) -> bool
    ensures { result ≡ dead_flags q.now }
{
    has(q[add_route4::FLAGS], 0x01) | has(q[add_route4::FLAGS], 0x10)
}

// RTNH_F_ONLINK.
pub fn onlink_flag(q: &AddRoute4) -> bool
    ensures { result ≡ onlink_flag q.now }
{
    has(q[add_route4::FLAGS], 0x04)
}

// What a kind that isn't one of the seven is refused with.
fn unknown_kind(code: u32) -> Refusal
    ensures { result ≡ Errno (cond (unsupported code) 95 22) }
{
    match code {
        4 | 5 | 10 | 11 => Refusal::Errno(layout::NOT_SUPPORTED),
        _ => Refusal::Errno(layout::INVALID),
    }
}

// Length and host bits, scope and dead flags, metrics, kind.
#[tactic(auto, unfolding(definition::specs::Reference::Routes::form_check))]
pub fn form_check(q: &AddRoute4) -> Result<(), Refusal>
    ensures { result ≡ unless (eqb (form_check q.now) 0) (Errno (form_check q.now)) }
{
    let invalid = Refusal::Errno(layout::INVALID);
    let narrow = q[route::SCOPE] < kind::least_scope(q[route::KIND]);
    let metrics_error = q[add_route4::METRICS_ERROR];
    unless(!bad_prefix(q), invalid)?;
    unless(!(narrow | dead_flags(q)), invalid)?;
    unless(metrics_error == 0, Refusal::Errno(metrics_error))?;
    unless(kind::is_kind(q[route::KIND]), unknown_kind(q[route::KIND]))
}

// The row that a request asks for; the kinds that reject have no device. No `Route4`: that has one of the seven kinds, and this is said
// of any number.
#[tactic(auto, unfolding(definition::specs::Reference::Routes::asked_route))]
pub fn asked_route(q: &AddRoute4, linked: bool) -> RouteRow
    ensures { result ≡ asked_route q.now linked }
{
    let mut row = [0u32; ROUTE_WORDS];
    let (head, metrics) = row.split_at_mut(route::METRICS);
    head.copy_from_slice(&[
        table_named(q),
        q[route::DST],
        q[route::LEN],
        q[route::TOS],
        q[route::PRIORITY],
        q[route::KIND],
        q[route::PROTO],
        q[route::SCOPE],
        q[route::PREFSRC_PRESENT],
        q[route::PREFSRC],
        q[route::GATEWAY_PRESENT],
        q[route::GATEWAY],
        u32::from(!kind::rejects(q[route::KIND])),
        u32::from(onlink_flag(q)),
        u32::from(linked),
    ]);
    metrics.copy_from_slice(&q[add_route4::METRICS..add_route4::UP]);
    row
}
