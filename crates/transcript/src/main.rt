// The program `transcript`: reads a circuit, its input and coins as three arrays (RFC 4506) on standard input, and prints the honest
// transcript.
#![tactic(auto)]

use programs::Program;
use std::io;

fn main(rt: HostRuntime) -> io::Result<()> {
    programs::run(Program::Transcript, &mut rt.stdin(), &mut rt.stdout())?;
    Ok(())
}
