// Cases of check, open and step. Each prints the operation's answer and gives it back.
ghost use Rattle.std.specs.Prelude.{◌≡◌, IfOk};
ghost use Rattle.refusal.specs.Number.{cause_of};
ghost use Rattle.protocol.specs.Check.{check_answer};
ghost use Rattle.session.specs.Answers.{Opens, Steps};
ghost use Rattle.cases.specs.Parts.{list_at};
ghost use Rattle.vectors.specs.Record.{session_in};

use refusal::Cause;
use session::{Opening, Session, Stepped, Verdict};
use std::io::{Result, Write};

fn print_record<W: Write>(output: &mut W, session: Session) -> Result<()> {
    let state = if session.open { "open" } else { "ended" };
    write!(
        output,
        " record {} {} {} {state}",
        session.layer, session.round, session.claim
    )
}

// The record whose figures are in a list. A function, since neither the record nor a list is a type of this program.
fn record(figures: &[u32]) -> Session
    ensures { result ≡ session_in figures.now }
{
    Session {
        layer: lists::word(figures, 0),
        round: lists::word(figures, 1),
        claim: lists::word(figures, 2),
        open: lists::word(figures, 3) == 1,
    }
}

pub fn check<W: Write>(output: &mut W, lists: &[u32]) -> Result<std::result::Result<(), Cause>>
    ensures { IfOk result (λ r. cause_of r
        ≡ check_answer (list_at 0 lists.now) (list_at 1 lists.now) (list_at 2 lists.now) (list_at 3 lists.now) (list_at 4 lists.now)) }
{
    let outcome = verifier::check(
        cases::list(lists, 0),
        cases::list(lists, 1),
        cases::list(lists, 2),
        cases::list(lists, 3),
        cases::list(lists, 4),
    );
    crate::print(output, outcome, |output, ()| output.write_all(b"accepted"))?;
    Ok(outcome)
}

pub fn open<W: Write>(output: &mut W, lists: &[u32]) -> Result<Opening>
    ensures { IfOk result (λ r. Opens (list_at 0 lists.now) (list_at 1 lists.now) (list_at 2 lists.now) (list_at 3 lists.now) r) }
{
    let opening = session::open(
        cases::list(lists, 0),
        cases::list(lists, 1),
        cases::list(lists, 2),
        cases::list(lists, 3),
    );
    crate::print(output, opening.session, |output, session| {
        output.write_all(b"opened")?;
        cases::print_numbers(output, opening.coins.list())?;
        print_record(output, session)
    })?;
    Ok(opening)
}

pub fn step<W: Write>(output: &mut W, lists: &[u32]) -> Result<Stepped>
    ensures { IfOk result (λ r.
        Steps (list_at 0 lists.now) (list_at 1 lists.now) (list_at 2 lists.now) (session_in (list_at 3 lists.now)) (list_at 4 lists.now) r) }
{
    let stepped = session::step(
        cases::list(lists, 0),
        cases::list(lists, 1),
        cases::list(lists, 2),
        record(cases::list(lists, 3)),
        cases::list(lists, 4),
    );
    match stepped.verdict {
        Verdict::Accepted => {
            output.write_all(b"accepted")?;
        }
        Verdict::GoOn(coin) => {
            write!(output, "go on {coin}")?;
        }
        Verdict::Refused(cause) => {
            cases::print_refused(output, cause)?;
        }
    }
    print_record(output, stepped.session)?;
    Ok(stepped)
}
