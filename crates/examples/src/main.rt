// Works examples out: each line of the input is printed again, and behind an arrow what it gives. A line is a call or a setting of
// docs/RIG.md's, `checksum BYTES`, or `hear D BYTES`; a comment is printed as it is.
#![tactic(auto)]

use std::io;

fn main(rt: HostRuntime) -> io::Result<()> {
    script::run(&mut rt.stdin(), &mut rt.stdout(), true)
}
