// Whether a request for an address puts in another row.
#![tactic(auto)]

ghost use Rattle.std.specs.Prelude.{◌≡◌};
ghost use Rattle.lists.specs.Lists.{first};
ghost use Rattle.definition.specs.Reference.Addresses.{same_address};
ghost use Rattle.definition_parts.specs.Rule.{row_changes};

use layout::AddV4;
use life::Nanoseconds;
use rows::Addresses;

// It does unless it makes the same row of the address that is there.
pub fn row_changes(addresses: Addresses<'_>, q: &AddV4, clock: Nanoseconds) -> bool
    ensures { result ≡ row_changes q.now clock.0 (first (same_address q.now) addresses.entry.rows.now) }
{
    let Some(i) = rows_place::same_at(addresses, q) else {
        return true;
    };
    let old = &addresses.rows[i];
    row_update::changed_to(q, old, clock) != *old
}
