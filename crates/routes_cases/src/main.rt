// What the program `routes` prints of several inputs, each a file. tools/make-states says how they are made. The last is a folder,
// which can be opened and not read.
#![tactic(auto)]

use std::fs;
use std::rt::Files;

fn print(rt: &(impl Files + Print + Eprint), path: &str) {
    let _ = println!(rt; "{path}");
    match fs::open(rt, path) {
        Ok(mut input) => app_show::print(rt, &mut input, path),
        Err(e) => streams::fail(rt, path, &e),
    }
}

fn main(rt: HostRuntime) {
    for path in [
        "empty",
        "tables",
        "full",
        "short",
        "long",
        "older",
        "nothing",
        "unordered",
        "kind4",
        "counts",
        ".",
    ] {
        print(&rt, path);
    }
}
