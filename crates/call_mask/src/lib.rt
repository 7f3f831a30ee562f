// The requests for an address with a netmask in place of the prefix, on lent words: the calls of call_change, and 207 before 202.
// Their arguments are those that C hands over.
#![tactic(auto)]

ghost use Rattle.std.specs.Prelude.{◌≡◌, ◌≢◌, ◌<◌, ℕ, true, false, length, IfOk, IfErr, MatchResult};
ghost use Rattle.refusal.specs.Refusal.{number_of};
ghost use Rattle.netmask.specs.Netmask.{good};
ghost use Rattle.definition.specs.Step.{checked};
ghost use Rattle.call_change.specs.Answer.{Answers};
ghost use Rattle.call_mask.specs.Masked.{mask_at, prefixed, mask_checks, add_v4_mask_call, del_v4_mask_call};

use layout::{ADD_V4_WORDS, DEL_V4_WORDS, EVENT_BUFFER, address, del_v4};
use refusal::Refusal;

// The request with the prefix in the place of the mask.
pub fn prefixed<const N: usize>(q: &[u32; N], at: usize) -> Result<[u32; N], Refusal>
    requires { at < length q.now }
    ensures { MatchResult result (λ own. (good (mask_at at q.now) ≡ true) × (own ≡ prefixed at q.now)) (λ e. (e ≡ Refusal.BadMask) × (good (mask_at at q.now) ≡ false)) }
{
    let mut own = *q;
    own[at] = netmask::prefix_of(own[at])?;
    Ok(own)
}

// The same of a call's request, a mask that isn't good refused behind the state and the room for events.
fn asked<const N: usize>(
    state: &[u32],
    q: &[u32],
    at: usize,
    room: usize,
) -> Result<[u32; N], Refusal>
    requires { at < N }
    ensures good { IfOk result (λ own. (length q.now ≡ N) × (good (mask_at at q.now) ≡ true) × (own ≡ prefixed at q.now)) }
    ensures bad { IfErr result (λ e. (request : ℕ) → (number_of e ≡ checked (mask_checks N at q.now room request) state.now) × (checked (mask_checks N at q.now room request) state.now ≢ 0)) }
{
    let q = call_read::sized(q)?;
    match prefixed(q, at) {
        Ok(own) => Ok(own),
        Err(bad) => call_read::checked(state, EVENT_BUFFER <= room, Err(bad)),
    }
}

// An address is put in, or the one that is there changed, as call_change has it.
pub fn add_v4(
    state: &mut [u32],
    q: &[u32],
    events: &mut [u32],
    clock: u64,
) -> Result<usize, Refusal>
    ensures { Answers (add_v4_mask_call q.now (length events.old) clock state.old) state.new events.old events.new result }
{
    let own = asked::<ADD_V4_WORDS>(state, q, address::PREFIX, events.len())?;
    call_change::add_v4(state, &own, events, clock)
}

// The first address that meets the conditions goes, as call_change has it.
pub fn del_v4(state: &mut [u32], q: &[u32], events: &mut [u32]) -> Result<usize, Refusal>
    ensures { Answers (del_v4_mask_call q.now (length events.old) state.old) state.new events.old events.new result }
{
    let own = asked::<DEL_V4_WORDS>(state, q, del_v4::PREFIX, events.len())?;
    call_change::del_v4(state, &own, events)
}
