// Lists the bytes of list_4008 and one more, which is too long.
#![tactic(auto)]

use std::io;

fn main(rt: HostRuntime) -> io::Result<()> {
    list::run(&rt)
}
