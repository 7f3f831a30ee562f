// select4 and primary_of over addresses as records: a lent slice of `V4`, and above it the words of a state.
#![tactic(auto)]

ghost use Rattle.std.specs.Prelude.{◌≡◌, ◌≤◌, true, map, length};
ghost use Rattle.lists.specs.Library.{own};
ghost use Rattle.layout.specs.Address.{fit_address};
ghost use Rattle.row_address.specs.Words.{row_of};
ghost use Rattle.definition.specs.State.{State};
ghost use Rattle.definition.specs.Step.{select4_call};
ghost use Rattle.state.specs.Represents.{Represents};
ghost use Rattle.call_read.specs.Answer.{Says, optional, valuing};
ghost use Rattle.call_records.specs.Call.{primary_of_call};
ghost use Rattle.definition.specs.Reference.Addresses.{primary_of};
ghost use Rattle.definition.specs.Reference.Source.{select4};

use layout::{ADDRESS_LIMIT, ADDRESS_WORDS, AddressRow};
use refusal::Refusal;
use row_address::V4;
use rows::Addresses;
use state::Stored;

// The first address that is eligible and in the destination's subnet, else the first that is eligible.
pub fn select4(addresses: &[V4], dst: Option<u32>, scope: u32) -> Option<u32>
    ensures { own result ≡ select4 (map row_of addresses.now) (own dst) scope }
{
    rows_source::select4(addresses, dst, scope)
}

// The local address of the first primary whose subnet it is in, for a secondary; else its own.
pub fn primary_of(addresses: &[V4], a: V4) -> u32
    ensures { result ≡ primary_of (map row_of addresses.now) (row_of a) }
{
    row_subnet::primary_of(addresses, &a)
}

// The records of rows, in lent room.
// An array and no `ArrayVec`, which fills its room with `V4::default()`: there is no address by default.
fn records<'a>(addresses: Addresses<'_>, room: &'a mut [V4; ADDRESS_LIMIT]) -> &'a [V4]
    requires { length addresses.rows.now ≤ 64 }
    ensures { map row_of result.now ≡ addresses.entry.rows.now }
{
    for (i, a) in addresses.rows.iter().enumerate() {
        room[i] = V4::from(a);
    }
    &room[..addresses.rows.len()]
}

// Room for the records of a state's addresses.
fn room() -> [V4; ADDRESS_LIMIT] {
    [V4::from(&[0; ADDRESS_WORDS]); ADDRESS_LIMIT]
}

fn select4_in(s: Stored<'_>, dst: Option<u32>, scope: u32) -> Option<u32>
    ensures { (st : State) → Represents s.entry.words.now st → own result ≡ select4 st.addresses (own dst) scope }
{
    let mut room = room();
    select4(records(s.addresses(), &mut room), dst, scope)
}

// That the row is fit is a clause: a struct around it would be made for this one call.
fn primary_of_in(s: Stored<'_>, row: &AddressRow) -> u32
    requires { fit_address row.now ≡ true }
    ensures { (st : State) → Represents s.entry.words.now st → result ≡ primary_of st.addresses row.now }
{
    let mut room = room();
    primary_of(records(s.addresses(), &mut room), V4::from(row))
}

// The call on the words of a state, with a mark and a word for what may be absent: a public function asks for no narrower type than it
// did.
pub fn select4_words(
    state: &[u32],
    dst_present: u32,
    dst: u32,
    scope: u32,
) -> Result<Option<u32>, Refusal>
    ensures { Says optional (select4_call dst_present dst scope state.now).reply result }
{
    let dst = request_fit::fit_select(dst_present, dst, scope);
    let (s, dst) = call_read::reading(state, true, dst)?;
    Ok(select4_in(s, dst, scope))
}

// By the words of a state, the local address of the primary whose subnet an address is in, handed over as any row of words.
pub fn primary_of_words(state: &[u32], row: &[u32]) -> Result<u32, Refusal>
    ensures { Says valuing (primary_of_call row.now state.now).reply result }
{
    let row = row_address::fit_address(row).ok_or(Refusal::Malformed);
    let (s, row) = call_read::reading(state, true, row)?;
    Ok(primary_of_in(s, row))
}
