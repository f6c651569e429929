// Lists a chunk of the greatest size that is read, with instructions of every kind that edition 3 has.
#![tactic(auto)]

use std::io;

fn main(rt: HostRuntime) -> io::Result<()> {
    list::run(&rt)
}
