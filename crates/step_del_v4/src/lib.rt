// An address deleted by request: the first that meets each condition that is made.
// A step is no method of `Change`, and asks for its room, for the reasons that step_events gives.
#![tactic(auto)]

ghost use Rattle.std.specs.Prelude.{◌≡◌, ◌&&◌, eqb};
ghost use Rattle.std.specs.List.{find};
ghost use Rattle.std.specs.Option.{option_map};
ghost use Rattle.layout.specs.Address.{label, label_length};
ghost use Rattle.layout.specs.Request.{label_given, label_length_given};
ghost use Rattle.definition.specs.State.{State};
ghost use Rattle.definition.specs.Reference.Removal.{deletes, del_v4};
ghost use Rattle.definition.specs.Preservation.Shrinking.{potential};
ghost use Rattle.step_events.specs.EmitsWithin.{RoomFor, SomeRoom};
ghost use Rattle.step_events.specs.Comes.{ComesWhole};

use layout::{AddressRow, DelV4, address, del_v4};
use refusal::Refusal;
use row_address::Label;
use rows::Addresses;
use step_events::Change;

// Whether the address has the label of the request. A function of its own: in `deletes` the check doesn't find this.
fn same_label(q: &DelV4, a: &AddressRow) -> bool
    ensures { result ≡ (eqb (label_length a.now) (label_length_given q.now) && eqb (label a.now) (label_given q.now)) }
{
    Label::from(a) == Label::from(q)
}

// Whether the address a meets each condition of the request q.
#[tactic(auto, unfolding(definition::specs::Reference::Removal::deletes))]
fn deletes(q: &DelV4, a: &AddressRow) -> bool
    ensures { result ≡ deletes q.now a.now }
{
    let local = q[del_v4::LOCAL_PRESENT] == 0 || a[address::LOCAL] == q[del_v4::LOCAL];
    let label = q[del_v4::LABEL_PRESENT] == 0 || same_label(q, a);
    let prefix = q[del_v4::ADDRESS_PRESENT] == 0
        || a[address::PREFIX] == q[del_v4::PREFIX] && row_subnet::covers(a, q[del_v4::ADDRESS]);
    local && label && prefix
}

// The first that does.
fn find<'a>(addresses: Addresses<'a>, q: &DelV4) -> Option<&'a AddressRow>
    ensures { option_map (λ a. a.now) result ≡ find (deletes q.now) addresses.entry.rows.now }
{
    addresses.rows.iter().find(|a| deletes(q, a))
}

pub fn del_v4(change: &mut Change<'_, '_>, q: &DelV4) -> Result<(), Refusal>
    requires { SomeRoom potential change.old }
    ensures { (st : State) → RoomFor potential st change.old → ComesWhole st (del_v4 q.now st) change.old change.new result }
{
    let Some(a) = find(change.state.stored().addresses(), q) else {
        return Err(Refusal::Errno(layout::NO_SUCH_ADDRESS));
    };
    let a = *a;
    step_remove_v4::remove_v4(change, &a);
    Ok(())
}
