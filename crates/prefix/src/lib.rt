// Prefixes of IPv4 addresses, by masks. Addresses and lengths are words of 32 bits.
// An address and a length are no struct: an address that is asked for is tried by the lengths of rows.
#![tactic(auto)]

ghost use Rattle.std.specs.Prelude.{◌≡◌, eqb};
ghost use Rattle.prefix.specs.Mask.{mask, network, host_bits, broadcast, flow_tos};

// The bits of a tos that a route's tos is matched against.
const TOS_LEGACY: u32 = 0x1c;

// A prefix over 32 counts as 32.
pub fn mask4(prefix: u32) -> u32
    ensures { result ≡ mask prefix }
{
    u32::MAX
        .checked_shl(32u32.saturating_sub(prefix))
        .unwrap_or(0)
}

pub fn network4(ip: u32, prefix: u32) -> u32
    ensures { result ≡ network ip prefix }
{
    ip & mask4(prefix)
}

pub fn host_bits4(ip: u32, prefix: u32) -> u32
    ensures { result ≡ host_bits ip prefix }
{
    ip & !mask4(prefix)
}

pub fn broadcast4(ip: u32, prefix: u32) -> u32
    ensures { result ≡ broadcast ip prefix }
{
    let m = mask4(prefix);
    (ip & m) | !m
}

pub fn same_network(a: u32, b: u32, prefix: u32) -> bool
    ensures { result ≡ eqb (network a prefix) (network b prefix) }
{
    network4(a, prefix) == network4(b, prefix)
}

pub fn flow_tos(tos: u32) -> u32
    ensures { result ≡ flow_tos tos }
{
    tos & TOS_LEGACY
}
