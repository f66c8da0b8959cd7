// Reads a script of calls on one end of the link and on one joining, and prints a line for each call: docs/RIG.md.
#![tactic(auto)]

use std::io;

fn main(rt: HostRuntime) -> io::Result<()> {
    script::run(&mut rt.stdin(), &mut rt.stdout(), false)
}
