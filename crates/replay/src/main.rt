// Runs a sample of the answers that decode.rs gave. oracle/README says how it was made.
#![tactic(auto)]

use std::io;

fn main(rt: HostRuntime) -> io::Result<()> {
    case_run::run(&rt)
}
