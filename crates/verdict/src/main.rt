// The program `verdict`: reads a circuit, its input, coins and a transcript, the outputs first and then the message words, as four arrays
// (RFC 4506) on standard input, and prints whether the check accepts it.
#![tactic(auto)]

use programs::Program;
use std::io;

fn main(rt: HostRuntime) -> io::Result<()> {
    programs::run(Program::Verdict, &mut rt.stdin(), &mut rt.stdout())?;
    Ok(())
}
