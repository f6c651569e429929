// Runs the cases that were worked out from document 01, which cases.txt lists.
#![tactic(auto)]

use std::io;

fn main(rt: HostRuntime) -> io::Result<()> {
    case_run::run(&rt)
}
