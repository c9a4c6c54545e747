// What a walk is of: a circuit, its input and its coins.

ghost use Rattle.std.specs.Prelude.{◌≡◌, IfOk};
ghost use Rattle.refusal.specs.Number.{cause_of};
ghost use Rattle.refusal.specs.Order.{first};
ghost use Rattle.circuit.specs.Legal.{lists_cause};
ghost use Rattle.protocol.specs.Check.{Counted, need_coins};

use refusal::Cause;

// A legal circuit, its input, and as many coins as it calls for.
#[derive(Clone, Copy)]
pub struct Job<'a> {
    pub circuit: &'a [u32],
    pub input: &'a [u32],
    pub coins: &'a [u32],
    pub ghost counted: { Counted circuit.now input.now coins.now },
}

impl<'a> Job<'a> {
    // The refusals 1 to 9, 11 and 12.
    pub fn check(circuit: &'a [u32], input: &'a [u32], coins: &'a [u32]) -> Result<Job<'a>, Cause>
        ensures answer { cause_of result ≡ first (lists_cause circuit.now input.now) (need_coins circuit.now coins.now 0) }
        ensures lists { IfOk result (λ job. (job.circuit.now ≡ circuit.now) × (job.input.now ≡ input.now) × (job.coins.now ≡ coins.now)) }
    {
        legality::check_lists(circuit, input)?;
        crate::check_coins(circuit, coins)?;
        Ok(Job {
            circuit,
            input,
            coins,
        })
    }
}
