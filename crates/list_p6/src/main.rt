// Lists a chunk of one move, case P6 of document 01.
#![tactic(auto)]

use std::io;

fn main(rt: HostRuntime) -> io::Result<()> {
    list::run(&rt)
}
