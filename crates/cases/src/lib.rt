// What the test program reads and prints with, whatever the operation: a case from standard input, its parts and lists; and numbers, refusals
// and buffers as its lines have them. Nothing is required of a case: what would stand past its end is left out, and the line then differs.
#![tactic(auto)]

ghost use Rattle.std.specs.Prelude.{◌≡◌, length, IfOk};
ghost use Rattle.refusal.specs.Number.{number_of};
ghost use Rattle.io.specs.Counts.{IsPrefixLen};
ghost use Rattle.cases.specs.Parts.{between, list_at};
ghost use Rattle.cases.specs.Checksum.{checksum_of};

use refusal::Cause;
use std::io::{Read, Result, Write};

// A buffer of at most so many words is printed whole.
const MOST_PRINTED: usize = 24;

// The modulus of the checksum, a prime.
const MODULUS: u64 = 100000000000000003;

// Reads the next case of the input, without its length, to the front of a buffer, and answers how many bytes it has: 0 at the input's end.
pub fn next<R: Read>(input: &mut R, buffer: &mut [u8]) -> Result<usize>
    ensures { IfOk result (λ n. IsPrefixLen n buffer.new) }
{
    let mut size = [0u8; 4];
    printing::read_full(input, &mut size)?;
    let count = buffer.len().min(xdr::word_at(&size, 0) as usize);
    printing::read_full(input, &mut buffer[..count])
}

// The items from one place to another.
#[tactic(auto, using(crate::proofs::Reading::between_clipped))]
pub fn part<T>(items: &[T], start: usize, end: usize) -> &[T]
    ensures { result.now ≡ between start end items.now }
{
    let to = end.min(items.len());
    let from = start.min(to);
    &items[from..to]
}

// The list with this index.
#[tactic(auto, unfolding(crate::specs::Parts::list_at))]
pub fn list(words: &[u32], index: u32) -> &[u32]
    ensures { result.now ≡ list_at index words.now }
{
    let place = index as usize;
    let start = lists::word(words, place) as usize;
    let end = lists::word(words, place + 1) as usize;
    part(words, start, end)
}

// The checksum of words, which a generator of expected answers computes as well.
#[tactic(auto, using(crate::proofs::Reading::checksum_next, crate::proofs::Reading::checksum_end))]
fn checksum(words: &[u32]) -> u64
    ensures { result ≡ checksum_of words.now }
{
    let mut h: u64 = 0;
    for &word in words {
        h = (h * 31 + u64::from(word)) % MODULUS;
    }
    h
}

// Prints numbers, each after a space, and answers how many.
pub fn print_numbers<W: Write>(output: &mut W, numbers: &[u32]) -> Result<usize>
    ensures { IfOk result (λ n. n ≡ length numbers.now) }
{
    for number in numbers {
        write!(output, " {number}")?;
    }
    Ok(numbers.len())
}

// Prints a refusal, and answers its number. No `Display` of a cause: the word is the test program's.
pub fn print_refused<W: Write>(output: &mut W, cause: Cause) -> Result<u32>
    ensures { IfOk result (λ n. n ≡ number_of cause) }
{
    let number = u32::from(cause);
    write!(output, "refused {number}")?;
    Ok(number)
}

// Prints what a buffer holds, and answers its checksum: all words of a short one, and of a long one the length, the first and the last
// word and the checksum.
pub fn print_buffer<W: Write>(output: &mut W, buffer: &[u32]) -> Result<u64>
    ensures { IfOk result (λ n. n ≡ checksum_of buffer.now) }
{
    let sum = checksum(buffer);
    let count = buffer.len();
    match buffer {
        [first, .., last] if MOST_PRINTED < count => {
            write!(
                output,
                " buffer of {count} from {first} to {last} checksum {sum}"
            )?;
        }
        _ => {
            output.write_all(b" buffer")?;
            print_numbers(output, buffer)?;
        }
    }
    Ok(sum)
}
