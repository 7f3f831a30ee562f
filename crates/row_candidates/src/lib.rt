// The routes that an address brings, and those that go with it.
#![tactic(auto)]

ghost use Rattle.std.specs.Prelude.{◌≡◌, ◌++◌, ◌<◌};
ghost use Rattle.arrayvec.specs.ArrayVec.{array_vec_len};
ghost use Rattle.kind.specs.Kind.{code_of};
ghost use Rattle.definition.specs.Reference.Addresses.{primary_of, kernel_route, local_route, up_routes, candidates};
ghost use Rattle.definition.specs.Reference.Removal.{leaving};
ghost use Rattle.row_candidates.specs.Rows.{named_routes, prefix_routes, subnet_routes, subnet_route, scope_of, listed};

use arrayvec::ArrayVec;
use kind::Kind;
use layout::{AddressRow, METRICS, RouteRow, address};
use row_route::Route4;
use rows::Addresses;

// At most four routes, in order.
pub type Block = ArrayVec<RouteRow, 4>;

// The route behind the others, if there is one.
fn extend(block: &mut Block, r: Option<RouteRow>)
    requires { array_vec_len block.old < 4 }
    ensures { block.new.items ≡ block.old.items ++ listed r }
{
    if let Some(r) = r {
        block.push(r);
    }
}

fn scope_of(kind: Kind) -> u32
    ensures { result ≡ scope_of (code_of kind) }
{
    match kind {
        Kind::Broadcast => layout::SCOPE_LINK,
        _ => layout::SCOPE_HOST,
    }
}

// One of the kernel's routes.
#[tactic(auto, unfolding(definition::specs::Reference::Addresses::kernel_route, lists::specs::Lists::zeros))]
pub fn kernel_route(dst: u32, len: u32, priority: u32, kind: Kind, source: u32) -> RouteRow
    ensures { result ≡ kernel_route dst len priority (code_of kind) source }
{
    RouteRow::from(Route4 {
        table: layout::TABLE_LOCAL,
        dst,
        len,
        tos: 0,
        priority,
        kind,
        proto: layout::PROTO_KERNEL,
        scope: scope_of(kind),
        prefsrc: Some(source),
        gateway: None,
        device: true,
        onlink: false,
        uses_gateway: false,
        metrics: [0; METRICS],
    })
}

// An address and the source of its routes.
#[derive(Clone, Copy)]
struct Sourced<'a> {
    a: &'a AddressRow,
    source: u32,
}

impl<'a> Sourced<'a> {
    // Its source is the local address of the primary whose subnet it is in.
    fn of(addresses: Addresses<'_>, a: &'a AddressRow) -> Self
        ensures { (result.a.now ≡ a.now) × (result.source ≡ primary_of addresses.entry.rows.now a.now) }
    {
        Sourced {
            a,
            source: row_subnet::primary_of(addresses.rows, a),
        }
    }

    // What the address brings at once.
    #[tactic(auto, unfolding(definition::specs::Reference::Addresses::local_route))]
    fn local(self) -> RouteRow
        ensures { result ≡ local_route self.entry.source self.entry.a.now }
    {
        kernel_route(self.a[address::LOCAL], 32, 0, Kind::Local, self.source)
    }

    // The route of the broadcast address that it names.
    fn named(self) -> Option<RouteRow>
        ensures { listed result ≡ named_routes self.entry.source self.entry.a.now }
    {
        if !row_subnet::names_broadcast(self.a) {
            return None;
        }
        Some(kernel_route(
            self.a[address::BROADCAST],
            32,
            0,
            Kind::Broadcast,
            self.source,
        ))
    }

    // Its prefix route, with a priority.
    fn prefix(self, priority: u32) -> Option<RouteRow>
        ensures { listed result ≡ prefix_routes priority self.entry.source self.entry.a.now }
    {
        if !row_subnet::has_prefix_route(self.a) {
            return None;
        }
        Some(prefix_route4(self.a, priority, self.source))
    }

    // Its subnet's broadcast route.
    fn subnet(self) -> Option<RouteRow>
        ensures { listed result ≡ subnet_routes self.entry.source self.entry.a.now }
    {
        if !row_subnet::has_broadcast_routes(self.a) {
            return None;
        }
        let last = prefix::broadcast4(self.a[address::ADDRESS], self.a[address::PREFIX]);
        Some(kernel_route(last, 32, 0, Kind::Broadcast, self.source))
    }

    // What it brings while the loopback is up, behind the routes of the block.
    #[tactic(auto, unfolding(definition::specs::Reference::Addresses::up_routes, definition::specs::Reference::Addresses::prefix_route))]
    fn up(self, block: &mut Block)
        requires { array_vec_len block.old < 2 }
        ensures { block.new.items ≡ block.old.items ++ up_routes self.entry.source self.entry.a.now }
    {
        extend(block, self.named());
        extend(block, self.prefix(self.a[address::PRIORITY]));
        extend(block, self.subnet());
    }
}

// The prefix route of an address with a priority.
pub fn prefix_route4(a: &AddressRow, priority: u32, source: u32) -> RouteRow
    ensures { result ≡ subnet_route priority source a.now }
{
    let len = a[address::PREFIX];
    let network = prefix::network4(a[address::ADDRESS], len);
    kernel_route(network, len, priority, Kind::Local, source)
}

// The routes that it brings while the loopback is up.
pub fn up_routes(a: &AddressRow, source: u32) -> Block
    ensures { result.items ≡ up_routes source a.now }
{
    let mut block = Block::new();
    Sourced { a, source }.up(&mut block);
    block
}

// All of them, in order.
#[tactic(auto, unfolding(definition::specs::Reference::Addresses::candidates))]
pub fn candidates(addresses: Addresses<'_>, a: &AddressRow, up: bool) -> Block
    ensures { result.items ≡ candidates addresses.entry.rows.now up a.now }
{
    let sourced = Sourced::of(addresses, a);
    let mut block = Block::new();
    block.push(sourced.local());
    if up {
        sourced.up(&mut block);
    }
    block
}

// An address's routes in the order in which they go, each with no priority named.
#[tactic(auto, using(crate::specs::Laws::leaving_rows))]
pub fn leaving(addresses: Addresses<'_>, a: &AddressRow) -> Block
    ensures { result.items ≡ leaving addresses.entry.rows.now a.now }
{
    let sourced = Sourced::of(addresses, a);
    let mut block = Block::new();
    extend(&mut block, sourced.prefix(0));
    extend(&mut block, sourced.named());
    extend(&mut block, sourced.subnet());
    block.push(sourced.local());
    block
}
