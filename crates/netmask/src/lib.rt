// The prefix that a netmask stands for, by the machine's counts of its ones and of its trailing zeros.
#![tactic(auto)]

ghost use Rattle.std.specs.Prelude.{◌≡◌};
ghost use Rattle.netmask.specs.Netmask.{prefix_of};

use refusal::Refusal;

// The prefix of a netmask; any word may be asked. Both are words, so this is no `TryFrom`.
#[tactic(auto, unfolding(crate::specs::Netmask::prefix_of, crate::specs::Netmask::good))]
pub fn prefix_of(mask: u32) -> Result<u32, Refusal>
    ensures { result ≡ prefix_of mask }
{
    let ones = mask.count_ones();
    let zeros = mask.trailing_zeros();
    if ones + zeros != 32 {
        return Err(Refusal::BadMask);
    }
    Ok(ones)
}
