// Reads a state from standard input, each word as four bytes, little-endian, and prints its routes in the order of a listing.
#![tactic(auto)]

fn main(rt: HostRuntime) {
    app_show::print(&rt, &mut rt.stdin(), "standard input");
}
