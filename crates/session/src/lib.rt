// A session: its opening, and one message at a time.
#![tactic(auto)]

ghost use Rattle.std.specs.Prelude.{◌≡◌, true};
ghost use Rattle.refusal.specs.Number.{number_of};
ghost use Rattle.walk.specs.Session.{going_on, refused, ended};
ghost use Rattle.protocol.specs.Session.{record_fits};
ghost use Rattle.standing.specs.Standing.{as_place};
ghost use Rattle.session.specs.Answers.{record_of, Starts, Opens, verdict_of, GoesOn, StepsOpen, Steps};

use refusal::Cause;
use short_list::ShortList;
use standing::{Job, Place, Round};

// What a step answers.
#[derive(Clone, Copy, PartialEq, Eq, Debug)]
pub enum Verdict {
    Accepted,
    GoOn(u32),
    Refused(Cause),
}

// A session's record: the place of the next message, the standing claim, and whether the session is open. The figures stay after its end, so a
// flag beside them says that.
#[derive(Clone, Copy, PartialEq, Eq, Debug)]
pub struct Session {
    pub layer: u32,
    pub round: u32,
    pub claim: u32,
    pub open: bool,
}

// A step's answer and the record after it.
#[derive(Clone, Copy, PartialEq, Eq, Debug)]
pub struct Stepped {
    pub verdict: Verdict,
    pub session: Session,
}

impl Session {
    // The place of its next message.
    fn place(self) -> Place
        ensures { as_place result ≡ (record_of self).round }
    {
        Place {
            layer: self.layer as usize,
            round: self.round as usize,
        }
    }

    // Whether it is open and fits the circuit.
    #[tactic(auto, unfolding(protocol::specs::Session::record_fits), using(protocol::proofs::Coins::its_circuit, circuit::proofs::Sized::deep))]
    fn fits(self, job: Job) -> bool
        ensures { result ≡ record_fits job.entry.circuit.now (record_of self) }
    {
        let Place { layer, round } = self.place();
        self.open
            && 1 <= layer
            && layer <= layout::depth(job.circuit)
            && round <= standing::line_round(job.circuit, layer)
            && self.claim < layout::prime(job.circuit)
    }

    // Its end: the figures stay.
    fn ended(self) -> Session
        ensures { record_of result ≡ ended (record_of self) }
    {
        Session {
            open: false,
            ..self
        }
    }
}

// The first standing claim, or the first of 1 to 9, 21, 13, 11 and 12: with it the whole check begins, as an opening does.
pub fn start(circuit: &[u32], input: &[u32], outputs: &[u32], coins: &[u32]) -> Result<u32, Cause>
    ensures { Starts circuit.now input.now outputs.now coins.now result }
{
    legality::check_lists(circuit, input)?;
    standing::check_outputs(circuit, outputs)?;
    standing::check_coins(circuit, coins)?;
    let f = layout::field(circuit);
    let point = standing::first_point(circuit, coins);
    Ok(extension::extend(f, outputs, point))
}

// What Open answers: the record or a refusal, and the coins before any message, none where it refuses.
#[derive(Clone, Copy, PartialEq, Eq, Debug)]
pub struct Opening {
    pub session: Result<Session, Cause>,
    pub coins: ShortList,
}

// Open session: layer 1, round 0, and the first claim, unless it refuses.
pub fn open(circuit: &[u32], input: &[u32], outputs: &[u32], coins: &[u32]) -> Opening
    ensures { Opens circuit.now input.now outputs.now coins.now result }
{
    match start(circuit, input, outputs, coins) {
        Ok(claim) => Opening {
            session: Ok(Session {
                layer: 1,
                round: 0,
                claim,
                open: true,
            }),
            coins: ShortList::new(standing::first_point(circuit, coins)),
        },
        Err(cause) => Opening {
            session: Err(cause),
            coins: ShortList::new(&[]),
        },
    }
}

// A refusal, and the record that it leaves.
fn refusal(cause: Cause, session: Session) -> Stepped
    ensures { (verdict_of result.verdict ≡ refused (number_of cause)) × (record_of result.session ≡ record_of session) }
{
    Stepped {
        verdict: Verdict::Refused(cause),
        session,
    }
}

// A step to the next round, with the coin that it hands out.
fn went_on(next: Session, coin: u32) -> Stepped
    ensures { (verdict_of result.verdict ≡ going_on coin) × (record_of result.session ≡ record_of next) }
{
    Stepped {
        verdict: Verdict::GoOn(coin),
        session: next,
    }
}

// After a message that passed: the next round with its coin, or the last comparison.
fn go_on(job: Job, session: Session, coin: u32, claim: u32) -> Stepped
    requires { record_fits job.circuit.now (record_of session) ≡ true }
    ensures { GoesOn job.entry.circuit.now job.entry.input.now job.entry.coins.now session coin claim result }
{
    let place = session.place();
    if !place.is_line(job.circuit) {
        return went_on(
            Session {
                round: session.round + 1,
                claim,
                ..session
            },
            coin,
        );
    }
    if place.layer < layout::depth(job.circuit) {
        return went_on(
            Session {
                layer: session.layer + 1,
                round: 0,
                claim,
                ..session
            },
            coin,
        );
    }
    let closed = session.ended();
    if !judgement::input_agrees(job.circuit, job.input, job.coins, claim) {
        return refusal(Cause::InputDiffers, closed);
    }
    Stepped {
        verdict: Verdict::Accepted,
        session: closed,
    }
}

// A step on an open record that fits.
fn step_open(job: Job, session: Session, message: &[u32]) -> Stepped
    requires { record_fits job.circuit.now (record_of session) ≡ true }
    ensures { StepsOpen job.entry.circuit.now job.entry.input.now job.entry.coins.now session message.now result }
{
    let place = session.place();
    let n = standing::coins_before(job.circuit, place.layer) + place.round;
    let round = Round {
        circuit: job.circuit,
        place,
        past: &job.coins[..n],
    };
    // As in the whole check, but that a refusal goes into the record.
    let judged = judgement::judge(round, session.claim, message);
    if let Err(cause) = judged {
        return refusal(cause, session.ended());
    }
    let coin = job.coins[n];
    let claim = polynomial::value_at(layout::field(job.circuit), message, coin);
    go_on(job, session, coin, claim)
}

// Step: 1 to 9, 11, 12 and 19 leave the record; then the message is judged.
pub fn step(
    circuit: &[u32],
    input: &[u32],
    coins: &[u32],
    session: Session,
    message: &[u32],
) -> Stepped
    ensures { Steps circuit.now input.now coins.now session message.now result }
{
    match Job::check(circuit, input, coins) {
        Err(cause) => refusal(cause, session),
        Ok(job) if session.fits(job) => step_open(job, session, message),
        Ok(_) => refusal(Cause::RecordUnfit, session),
    }
}
