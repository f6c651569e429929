// Lists a chunk of one instruction without operands, case P2 of document 01.
#![tactic(auto)]

use std::io;

fn main(rt: HostRuntime) -> io::Result<()> {
    list::run(&rt)
}
