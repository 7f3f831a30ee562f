// The row that a request to delete a route names.
#![tactic(auto)]

ghost use Rattle.std.specs.Prelude.{◌≡◌, true, position};
ghost use Rattle.layout.specs.Request.{fit_del_route4};
ghost use Rattle.definition.specs.Reference.Routes.{selects, has_metrics, table_named};
ghost use Rattle.request_select.specs.Laws.{same_place, same_fields};

use layout::{DelRoute4, RouteRow, del_route4, route};
use rows::Routes;

// The row is in the table that is named, and has the destination, the tos and at least the priority. This and `same_fields` are the
// definition's relations between a request and a row, and no equality: the one has a bound in it, the other what matches any.
fn same_place(q: &DelRoute4, t: u32, r: &RouteRow) -> bool
    ensures { result ≡ same_place q.now t r.now }
{
    (r[route::TABLE] == t)
        & (r[route::DST] == q[route::DST])
        & (r[route::LEN] == q[route::LEN])
        & (r[route::TOS] == q[route::TOS])
        & (q[route::PRIORITY] <= r[route::PRIORITY])
}

// Each other field matches any where it is 0 or absent, 255 for the scope.
fn same_fields(q: &DelRoute4, r: &RouteRow) -> bool
    ensures { result ≡ same_fields q.now r.now }
{
    ((q[route::KIND] == 0) | (r[route::KIND] == q[route::KIND]))
        & ((q[route::SCOPE] == 255) | (r[route::SCOPE] == q[route::SCOPE]))
        & ((q[route::PREFSRC_PRESENT] == 0)
            | ((r[route::PREFSRC_PRESENT] == 1) & (r[route::PREFSRC] == q[route::PREFSRC])))
        & ((q[route::PROTO] == 0) | (r[route::PROTO] == q[route::PROTO]))
        & ((q[del_route4::OIF] == 0) | ((q[del_route4::OIF] == 1) & (r[route::DEVICE] == 1)))
        & ((q[route::GATEWAY_PRESENT] == 0)
            | ((r[route::GATEWAY_PRESENT] == 1) & (r[route::GATEWAY] == q[route::GATEWAY])))
}

// A row has every metric that the request names.
// That the request is fit is a clause, here and below: it is read by place and handed on as its array, so a struct would be taken apart in each.
#[tactic(auto, using(crate::specs::Laws::count_fits))]
fn has_metrics(q: &DelRoute4, r: &RouteRow) -> bool
    requires { fit_del_route4 q.now ≡ true }
    ensures { result ≡ has_metrics q.now r.now }
{
    let mut same = q[del_route4::LIST_PRESENT] == 1;
    for &[index, value] in request_fit::pairs(q) {
        same &= r[route::METRICS + index as usize] == value;
    }
    same
}

// Most rows are of other places, so that is asked first.
#[tactic(auto, using(crate::specs::Laws::selects_parts))]
fn selects(q: &DelRoute4, t: u32, r: &RouteRow) -> bool
    requires fits { fit_del_route4 q.now ≡ true }
    requires named { t ≡ table_named q.now }
    ensures { result ≡ selects q.now r.now }
{
    same_place(q, t, r) && (same_fields(q, r) & has_metrics(q, r))
}

// The place of the first row that the request names.
pub fn select_route(routes: Routes<'_>, q: &DelRoute4) -> Option<usize>
    requires { fit_del_route4 q.now ≡ true }
    ensures { result ≡ position (selects q.now) routes.entry.rows.now }
{
    let t = request_route::table_named(q);
    routes.rows.iter().position(|r| selects(q, t, r))
}
