// Rising destinations looked up together over rows of routes, by a walk for each set of tables.
#![tactic(auto)]

ghost use Rattle.std.specs.Prelude.{◌≡◌, ◌+◌, ◌*◌, ◌≤◌, true, Bool, ℕ, List, [], ◌∷◌, ◌++◌, map, length};
ghost use Rattle.lists.specs.Lists.{Row, flat, put};
ghost use Rattle.lists.specs.Library.{lent_ok};
ghost use Rattle.definition.specs.Reference.Lookup.{flow_to};
ghost use Rattle.definition_many.specs.Many.{answer_size, rising};
ghost use Rattle.rows_lookup.specs.Answer.{answered, lookup_rows};
ghost use Rattle.rows_walk.specs.Walked.{Rising};
ghost use Rattle.rows_many.specs.Sets.{weighed_rows, answer_to, words_of};

use layout::{ROUTE_WORDS, RouteRow};
use refusal::Refusal;
use rows::Routes;
use rows_lookup::{LOWER, UPPER};
use rows_walk::Walk;

// An answer: the number or 0, and the row or zeros.
pub const ANSWER_WORDS: usize = 1 + ROUTE_WORDS;

type Answer = [u32; ANSWER_WORDS];

fn answer_of(found: Result<&RouteRow, Refusal>) -> Answer
    ensures words { result ≡ words_of (lent_ok found.entry) }
    ensures size { length result ≡ answer_size }
{
    let mut answer = [0; ANSWER_WORDS];
    match found {
        Ok(row) => answer[1..].copy_from_slice(row),
        Err(refusal) => answer[0] = refusal.number(),
    }
    answer
}

// The walks of both sets, 253's as far as a destination led on to it.
#[derive(Drop)]
struct Walks<'a> {
    upper: Walk<'a>,
    lower: Walk<'a>,
    default_listed: bool,
}

impl<'a> Walks<'a> {
    ghost use Rattle.rows_many.specs.Walks.{Both, Above};

    fn of(routes: Routes<'a>, default_listed: bool) -> Self
        ensures { Both default_listed routes.entry.rows.now [] result }
    {
        Walks {
            upper: Walk::of(routes, UPPER),
            lower: Walk::of(routes, LOWER),
            default_listed,
        }
    }

    // What `rows_lookup::lookup4_in` finds for a destination, which isn't below those asked for before: 255 and 254, then 253.
    fn answer(&mut self, ip: u32) -> Result<&'a RouteRow, Refusal>
        ensures { (listed : Bool) (l : List Row) (ds : List ℕ) → Rising l → Above ip ds → Both listed l ds self.old
            → (lent_ok result ≡ answered (lookup_rows listed l (flow_to ip))) × Both listed l (ds ++ (ip ∷ [])) self.new }
    {
        if let Some(answer) = rows_lookup::ruled(self.upper.answer(ip)) {
            return answer;
        }
        if !self.default_listed {
            return Err(Refusal::Errno(layout::NET_UNREACHABLE));
        }
        if let Some(answer) = rows_lookup::ruled(self.lower.answer(ip)) {
            return answer;
        }
        Err(Refusal::Errno(layout::NET_UNREACHABLE))
    }
}

// Each destination's answer, in the buffer; how many rows were weighed is returned.
pub fn lookup4_many(
    routes: Routes<'_>,
    default_listed: bool,
    destinations: &[u32],
    answers: &mut [u32],
) -> u32
    requires rows { Rising routes.rows.now × (length routes.rows.now ≤ 256) }
    requires destinations { rising destinations.now ≡ true }
    requires room { answer_size * length destinations.now ≤ length answers.old }
    ensures value { result ≡ weighed_rows default_listed routes.entry.rows.now destinations.now }
    ensures answers_after { answers.new ≡ put 0 (flat (map (answer_to default_listed routes.entry.rows.now) destinations.now)) answers.old }
{
    let mut walks = Walks::of(routes, default_listed);
    for (j, ip) in destinations.iter().enumerate() {
        let answer = answer_of(walks.answer(*ip));
        words::store(answers, ANSWER_WORDS * j, &answer);
    }
    (walks.upper.weighed + walks.lower.weighed) as u32
}
