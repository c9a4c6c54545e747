// Cases of load and evaluate. Each prints the operation's answer and gives it back.
ghost use Rattle.std.specs.Prelude.{◌≡◌, IfOk};
ghost use Rattle.refusal.specs.Number.{cause_of};
ghost use Rattle.circuit.specs.Legal.{load_answer};
ghost use Rattle.evaluation.specs.Evaluate.{Evaluates};
ghost use Rattle.cases.specs.Parts.{list_at};

use evaluation::Evaluated;
use refusal::Cause;
use std::io::{Result, Write};

pub fn load<W: Write>(output: &mut W, lists: &[u32]) -> Result<std::result::Result<(), Cause>>
    ensures { IfOk result (λ r. cause_of r ≡ load_answer (list_at 0 lists.now)) }
{
    let loaded = legality::load(cases::list(lists, 0));
    crate::print(output, loaded, |output, ()| output.write_all(b"legal"))?;
    Ok(loaded)
}

pub fn evaluate<W: Write>(output: &mut W, lists: &[u32], lent: &mut [u32]) -> Result<Evaluated>
    ensures { IfOk result (λ r. Evaluates (list_at 0 lists.now) (list_at 1 lists.now) lent.old r lent.new) }
{
    let evaluated = evaluation::evaluate(cases::list(lists, 0), cases::list(lists, 1), lent);
    crate::print(output, evaluated.outcome, |output, ()| {
        output.write_all(b"value")?;
        cases::print_numbers(output, evaluated.outputs.list())?;
        Ok(())
    })?;
    Ok(evaluated)
}
