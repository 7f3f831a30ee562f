// Tests of one address row, and the primary whose subnet an address is in.
#![tactic(auto)]

ghost use Rattle.std.specs.Prelude.{◌≡◌, ◌≤◌, length, map};
ghost use Rattle.std.specs.List.{find};
ghost use Rattle.std.specs.Option.{option_map};
ghost use Rattle.lists.specs.Lists.{Row};
ghost use Rattle.layout.specs.Address.{local, address, prefix, scope, flags, secondary, no_prefix_route};
ghost use Rattle.row_address.specs.Words.{row_of};
ghost use Rattle.definition.specs.Reference.Addresses.{covers, same_subnet, own_network, names_broadcast, primary_of};
ghost use Rattle.row_subnet.specs.OwnRoutes.{has_prefix_route, has_broadcast_routes, primary_for};

use layout::{ADDRESS_WORDS, AddressRow, address};
use row_address::V4;

// rtnetlink's IFA_F_NOPREFIXROUTE.
const NO_PREFIX_ROUTE: u32 = 0x200;

// An address as its row of words or as its record.
pub trait Address {
    ghost words: { Self → Row };

    fn local(&self) -> u32
        ensures { result ≡ local (words self.now) };

    fn address(&self) -> u32
        ensures { result ≡ address (words self.now) };

    fn prefix(&self) -> u32
        ensures { result ≡ prefix (words self.now) };

    fn scope(&self) -> u32
        ensures { result ≡ scope (words self.now) };

    fn flags(&self) -> u32
        ensures { result ≡ flags (words self.now) };
}

impl Address for [u32; ADDRESS_WORDS] {
    ghost words = { λ a. a };

    fn local(&self) -> u32 {
        self[address::LOCAL]
    }

    fn address(&self) -> u32 {
        self[address::ADDRESS]
    }

    fn prefix(&self) -> u32 {
        self[address::PREFIX]
    }

    fn scope(&self) -> u32 {
        self[address::SCOPE]
    }

    fn flags(&self) -> u32 {
        self[address::FLAGS]
    }
}

impl Address for V4 {
    ghost words = { row_of };

    fn local(&self) -> u32 {
        self.local
    }

    fn address(&self) -> u32 {
        self.address
    }

    fn prefix(&self) -> u32 {
        self.prefix
    }

    fn scope(&self) -> u32 {
        self.scope
    }

    fn flags(&self) -> u32 {
        self.flags
    }
}

pub fn secondary<A: Address>(a: &A) -> bool
    ensures { result ≡ secondary (A.words a.now) }
{
    row_address::has(a.flags(), row_address::SECONDARY)
}

pub fn no_prefix_route(a: &AddressRow) -> bool
    ensures { result ≡ no_prefix_route a.now }
{
    row_address::has(a.flags(), NO_PREFIX_ROUTE)
}

// Whether ip is in the address's subnet.
#[tactic(auto, unfolding(definition::specs::Reference::Addresses::covers))]
pub fn covers<A: Address>(a: &A, ip: u32) -> bool
    ensures { result ≡ covers (A.words a.now) ip }
{
    prefix::same_network(ip, a.address(), a.prefix())
}

// Whether b, an address or a request for one, is in the subnet of a. A slice, since the two differ in length.
// No equality: it is the mask of a that both are taken by.
#[tactic(auto, unfolding(definition::specs::Reference::Addresses::same_subnet))]
pub fn same_subnet(a: &AddressRow, b: &[u32]) -> bool
    requires { 14 ≤ length b.now }
    ensures { result ≡ same_subnet a.now b.now }
{
    a[address::PREFIX] == b[address::PREFIX] && covers(a, b[address::ADDRESS])
}

// Whether it names a broadcast address other than 0.0.0.0 and 255.255.255.255.
pub fn names_broadcast(a: &AddressRow) -> bool
    ensures { result ≡ names_broadcast a.now }
{
    let ip = a[address::BROADCAST];
    a[address::BROADCAST_PRESENT] == 1 && ip != 0 && ip != 0xffffffff
}

// Whether its prefix is a network of its own: not the network 0, and no /32 of its own address.
pub fn own_network(a: &AddressRow) -> bool
    ensures { result ≡ own_network a.now }
{
    let len = a[address::PREFIX];
    let network = prefix::network4(a[address::ADDRESS], len);
    network != 0 && !(network == a[address::LOCAL] && len == 32)
}

// Whether it brings a prefix route.
pub fn has_prefix_route(a: &AddressRow) -> bool
    ensures { result ≡ has_prefix_route a.now }
{
    own_network(a) && !secondary(a) && !no_prefix_route(a)
}

// Whether it brings its subnet's broadcast route: none for prefix 31 (RFC 3021).
pub fn has_broadcast_routes(a: &AddressRow) -> bool
    ensures { result ≡ has_broadcast_routes a.now }
{
    own_network(a) && !secondary(a) && a[address::PREFIX] < 31
}

// Whether b is a primary whose subnet a is in.
#[tactic(auto, unfolding(definition::specs::Reference::Addresses::same_subnet))]
pub fn primary_for<A: Address>(b: &A, a: &A) -> bool
    ensures { result ≡ primary_for (A.words a.now) (A.words b.now) }
{
    !secondary(b) && b.prefix() == a.prefix() && covers(b, a.address())
}

// The first primary whose subnet a is in.
pub fn primary_at<'a, A: Address>(addresses: &'a [A], a: &A) -> Option<&'a A>
    ensures { option_map (λ b. b.now) result ≡ find (λ b. primary_for (A.words a.now) (A.words b)) addresses.now }
{
    addresses.iter().find(|b| primary_for(*b, a))
}

// The local address of the first primary whose subnet it is in, for a secondary; else its own.
#[tactic(auto, unfolding(definition::specs::Reference::Addresses::primary_of))]
pub fn primary_of<A: Address>(addresses: &[A], a: &A) -> u32
    ensures { result ≡ primary_of (map A.words addresses.now) (A.words a.now) }
{
    if !secondary(a) {
        return a.local();
    }
    let primary = primary_at(addresses, a).unwrap_or(a);
    primary.local()
}
