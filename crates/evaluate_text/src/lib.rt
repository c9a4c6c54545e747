// What the program `evaluate` prints for lists: the outputs of a circuit and input, or why there are none.
#![tactic(auto)]

ghost use Rattle.text.specs.Wrote.{Wrote};
ghost use Rattle.evaluate_text.specs.Output.{lists_text};

// Writes what is printed for these lists. The buffer holds the values of every circuit, so that none is refused by 10. The arm of a refusal
// stands in three programs' texts: to share it would take a closure for the other arm.
pub fn write_lists(circuit: &[u32], input: &[u32], text: &mut [u8]) -> usize
    ensures { Wrote (lists_text circuit.now input.now) text.old text.new result }
{
    let mut values = [0u32; evaluation::MAX_VALUES];
    let evaluated = evaluation::evaluate(circuit, input, &mut values);
    match evaluated.outcome {
        Err(cause) => printing::write_refused(cause, text),
        Ok(()) => text::put_line(text, b"output", evaluated.outputs.list()),
    }
}
