// Cases of both forms of prove. Each prints the operation's answer and gives it back.
ghost use Rattle.std.specs.Prelude.{IfOk};
ghost use Rattle.prover.specs.Answers.{Proves, ProvesOne};
ghost use Rattle.cases.specs.Parts.{list_at};

use prover::Proof;
use refusal::Cause;
use std::io::{Result, Write};

pub fn prove<W: Write>(output: &mut W, lists: &[u32], lent: &mut [u32]) -> Result<Proof>
    ensures { IfOk result (λ r. Proves (list_at 0 lists.now) (list_at 1 lists.now) (list_at 2 lists.now) lent.old r lent.new) }
{
    let proved = prover::prove(
        cases::list(lists, 0),
        cases::list(lists, 1),
        cases::list(lists, 2),
        lent,
    );
    crate::print(output, proved.words, |output, words| {
        write!(output, "proved {words}")?;
        cases::print_numbers(output, proved.outputs.list())?;
        Ok(())
    })?;
    Ok(proved)
}

pub fn prove_one<W: Write>(
    output: &mut W,
    lists: &[u32],
    lent: &mut [u32],
) -> Result<std::result::Result<usize, Cause>>
    ensures { IfOk result (λ r. ProvesOne (list_at 0 lists.now) (list_at 1 lists.now) (list_at 2 lists.now) lent.old r lent.new) }
{
    let message = prover::prove_one(
        cases::list(lists, 0),
        cases::list(lists, 1),
        cases::list(lists, 2),
        lent,
    );
    crate::print(
        output,
        message,
        |output, words| write!(output, "message {words}"),
    )?;
    Ok(message)
}
