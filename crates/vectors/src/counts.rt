// Counts: on how many of all lists of coins below 13 the messages of the prover, or those of a rule, are accepted, by a check and by a session.
// The lists of a case are a circuit of one or two outputs with three messages, of three, three and two words, its input, the outputs, and the
// rule's messages: the first ones in the order of the coin before any message, if there is one, then the second ones in the order of the coins
// before them, then the third ones.
ghost use Rattle.std.specs.Prelude.{◌≤◌, IfOk};
ghost use Rattle.vectors.specs.Counts.{all_lists};

use session::Verdict;
use std::io::{Result, Write};

// The coins of the three messages, and with the one before them.
const MESSAGE_COINS: usize = 3;

const MOST_COINS: usize = 4;

// All lists of so many coins below 13.
const LISTS_OF_THREE: u32 = 2197;

const LISTS_OF_FOUR: u32 = 28561;

// The coins before any message of a circuit of one or two outputs.
fn first_coins(circuit: &[u32]) -> usize
    ensures { result ≤ 1 }
{
    lists::word(circuit, 2).min(1) as usize
}

// The list of four coins below 13 that has a number. The last three are those of the messages.
fn coins_of(number: u32) -> [u32; MOST_COINS] {
    [
        number / 2197 % 13,
        number / 169 % 13,
        number / 13 % 13,
        number % 13,
    ]
}

// The coins of a circuit in a list of four.
fn coins<'a>(circuit: &[u32], all: &'a [u32; MOST_COINS]) -> &'a [u32] {
    &all[MOST_COINS - MESSAGE_COINS - first_coins(circuit)..]
}

// The prover's messages, all at once.
fn whole(circuit: &[u32], input: &[u32], number: u32) -> [u32; 8] {
    let all = coins_of(number);
    let mut messages = [0u32; 8];
    let _ = prover::prove(circuit, input, coins(circuit, &all), &mut messages);
    messages
}

// The message that follows a coin prefix, with 0 behind it where it is shorter.
fn following(circuit: &[u32], input: &[u32], prefix: &[u32]) -> [u32; 3] {
    let mut message = [0u32; 3];
    let _ = prover::prove_one(circuit, input, prefix, &mut message);
    message
}

// The prover's messages, one after the other.
fn single(circuit: &[u32], input: &[u32], number: u32) -> [u32; 8] {
    let all = coins_of(number);
    let start = MOST_COINS - MESSAGE_COINS - first_coins(circuit);
    let [a, b, c] = following(circuit, input, &all[start..1]);
    let [d, e, f] = following(circuit, input, &all[start..2]);
    let [g, h, _] = following(circuit, input, &all[start..3]);
    [a, b, c, d, e, f, g, h]
}

// The messages of a rule on the coin list of a number. There are as many first messages as values of the coin before them, or one.
fn ruled(circuit: &[u32], rule: &[u32], number: u32) -> [u32; 8] {
    let firsts = 1 + 12 * first_coins(circuit);
    let first = 3 * (number / 2197 % 13) as usize;
    let second = 3 * (firsts + (number / 169 % 169) as usize);
    let third = 42 * firsts + 2 * (number / 13 % 2197) as usize;
    [
        lists::word(rule, first),
        lists::word(rule, first + 1),
        lists::word(rule, first + 2),
        lists::word(rule, second),
        lists::word(rule, second + 1),
        lists::word(rule, second + 2),
        lists::word(rule, third),
        lists::word(rule, third + 1),
    ]
}

// Whether the last step of a session accepts.
fn steps_accepted(
    circuit: &[u32],
    input: &[u32],
    outputs: &[u32],
    coins: &[u32],
    messages: [u32; 8],
) -> bool {
    let opening = session::open(circuit, input, outputs, coins);
    let Ok(opened) = opening.session else {
        return false;
    };
    let session = session::step(circuit, input, coins, opened, &messages[..3]).session;
    let session = session::step(circuit, input, coins, session, &messages[3..6]).session;
    session::step(circuit, input, coins, session, &messages[6..]).verdict == Verdict::Accepted
}

// Counts the lists on which the messages that each list's number gives are accepted, prints both counts, and answers the check's.
fn count<W: Write, M: Fn(&[u32], &[u32], u32) -> [u32; 8]>(
    output: &mut W,
    lists: &[u32],
    messages_of: M,
) -> Result<u32>
    requires { M.IsAlwaysCallable messages_of }
    ensures { IfOk result (λ n. n ≤ all_lists) }
{
    let circuit = cases::list(lists, 0);
    let input = cases::list(lists, 1);
    let outputs = cases::list(lists, 2);
    let tried = LISTS_OF_THREE + (LISTS_OF_FOUR - LISTS_OF_THREE) * first_coins(circuit) as u32;
    let mut by_check = 0;
    let mut by_session = 0;
    // By number, from which a list is made.
    for number in 0..tried {
        let all = coins_of(number);
        let coins = coins(circuit, &all);
        let messages = messages_of(circuit, input, number);
        let accepted = verifier::check(circuit, input, outputs, coins, &messages).is_ok();
        by_check += u32::from(accepted);
        by_session += u32::from(steps_accepted(circuit, input, outputs, coins, messages));
    }
    write!(
        output,
        "accepted on {by_check} by check, {by_session} by session"
    )?;
    Ok(by_check)
}

// Of the prover's messages, all at once.
pub fn count_whole<W: Write>(output: &mut W, lists: &[u32]) -> Result<u32>
    ensures { IfOk result (λ n. n ≤ all_lists) }
{
    count(
        output,
        lists,
        |circuit, input, number| whole(circuit, input, number),
    )
}

// Of the prover's messages, one after the other.
pub fn count_single<W: Write>(output: &mut W, lists: &[u32]) -> Result<u32>
    ensures { IfOk result (λ n. n ≤ all_lists) }
{
    count(
        output,
        lists,
        |circuit, input, number| single(circuit, input, number),
    )
}

// Of a rule's messages.
pub fn count_rule<W: Write>(output: &mut W, lists: &[u32]) -> Result<u32>
    ensures { IfOk result (λ n. n ≤ all_lists) }
{
    let rule = cases::list(lists, 3);
    count(
        output,
        lists,
        |circuit, _, number| ruled(circuit, rule, number),
    )
}
