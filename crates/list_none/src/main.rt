// Lists no bytes at all.
#![tactic(auto)]

use std::io;

fn main(rt: HostRuntime) -> io::Result<()> {
    list::run(&rt)
}
