// The program `evaluate`: reads a circuit and its input as two arrays (RFC 4506) on standard input, and prints the circuit's outputs.
#![tactic(auto)]

use programs::Program;
use std::io;

fn main(rt: HostRuntime) -> io::Result<()> {
    programs::run(Program::Evaluate, &mut rt.stdin(), &mut rt.stdout())?;
    Ok(())
}
