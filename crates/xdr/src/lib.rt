// Reads arrays of unsigned integers from bytes (RFC 4506): first all counts, so that a refusal leaves the buffer as it was, then the words.
#![tactic(auto)]

ghost use Rattle.std.specs.Prelude.{◌≡◌, cond, ◌+◌, ◌/◌, ◌≤◌, min, length, get_or, take, drop};
ghost use Rattle.std.proofs.Math.Option.{IsSome};
ghost use Rattle.lists.specs.Buffer.{over};
ghost use Rattle.xdr.specs.Read.{first_word, words, size, whole, arrays, called, answer_of, counts_of, words_of, read_answer, read_buffer};

use refusal::Cause;

// The largest count of words in an array: the longest circuit list has as many.
const MAX_COUNT: u32 = layout::MAX_WORDS as u32;

// The bytes of an array of so many words, its count included.
fn size(count: u32) -> usize
    ensures { result ≡ size count }
{
    4 + 4 * count as usize
}

// The first word, high byte first; 0 of fewer than four bytes.
#[tactic(auto, using(crate::proofs::Words::first_four, crate::proofs::Words::first_none))]
fn first_word(bytes: &[u8]) -> u32
    ensures { result ≡ first_word bytes.now }
{
    bytes
        .first_chunk()
        .map_or(0, |word| u32::from_be_bytes(*word))
}

// The word at a place; 0 where fewer than four bytes stand there.
#[tactic(auto, using(crate::proofs::Words::first_past, crate::proofs::Words::first_rest))]
pub fn word_at(bytes: &[u8], at: usize) -> u32
    ensures { result ≡ first_word (drop at bytes.now) }
{
    bytes.get(at..).map_or(0, first_word)
}

// Writes the words that the bytes hold over the front of a buffer, as many as it holds, and answers how many.
pub fn put_words(bytes: &[u8], buffer: &mut [u32]) -> usize
    ensures count { result ≡ min (length bytes.now / 4) (length buffer.old) }
    ensures words { buffer.new ≡
        over (take (length buffer.old) (words bytes.now)) buffer.old }
{
    let (all, _) = bytes.as_chunks::<4>();
    let count = all.len().min(buffer.len());
    // By their places: behind a `zip` with `iter_mut` nothing is known of a buffer's words.
    for (i, word) in all[..count].iter().enumerate() {
        buffer[i] = u32::from_be_bytes(*word);
    }
    count
}

// Writes the words of all arrays, which the bytes are known to hold, to the front of the buffer.
fn write(bytes: &[u8], number: u32, buffer: &mut [u32])
    requires { IsSome (arrays number bytes.now) × (length (words_of (arrays number bytes.now)) ≤ length buffer.old) }
    ensures { buffer.new ≡ over (words_of (arrays number bytes.now)) buffer.old }
{
    let mut rest = bytes;
    let mut to = 0;
    for _ in 0..number {
        let (array, behind) = rest.split_at(size(first_word(rest)));
        to += put_words(&array[4..], &mut buffer[to..]);
        rest = behind;
    }
}

// The count of the array at the front, if a whole one of legal length stands there.
#[tactic(auto, unfolding(crate::specs::Read::whole))]
fn front(bytes: &[u8]) -> Option<u32>
    ensures { result ≡ cond (whole bytes.now) (Some (first_word bytes.now)) None }
{
    let count = first_word(bytes);
    let whole = count <= MAX_COUNT && size(count) <= bytes.len();
    whole.then_some(count)
}

// The counts of the arrays, with nothing written.
fn scan(bytes: &[u8], number: u32) -> Result<[u32; 4], Cause>
    ensures { answer_of result ≡ counts_of (called number bytes.now) }
{
    if number < 1 || 4 < number {
        return Err(Cause::BytesUnfit);
    }
    let mut counts = [0; 4];
    let mut rest = bytes;
    for count in &mut counts[..number as usize] {
        *count = front(rest).ok_or(Cause::BytesUnfit)?;
        (_, rest) = rest.split_at(size(*count));
    }
    if !rest.is_empty() {
        return Err(Cause::BytesUnfit);
    }
    Ok(counts)
}

// How many words the arrays have together.
fn total(counts: [u32; 4]) -> usize
    ensures { result ≡ get_or counts 0 0 + get_or counts 1 0 + get_or counts 2 0 + get_or counts 3 0 }
{
    let [first, second, third, fourth] = counts.map(|count| count as usize);
    first + second + third + fourth
}

// Reads the arrays that the bytes are made of, as many as the given number, and writes their words to the front of the buffer. The answer is
// four counts, 0 for arrays not called for, or why nothing was read.
pub fn read(bytes: &[u8], number: u32, buffer: &mut [u32]) -> Result<[u32; 4], Cause>
    ensures answer { answer_of result ≡ read_answer number bytes.now buffer.old }
    ensures words { buffer.new ≡ read_buffer number bytes.now buffer.old }
{
    let counts = scan(bytes, number)?;
    if buffer.len() < total(counts) {
        return Err(Cause::BufferShort);
    }
    write(bytes, number, buffer);
    Ok(counts)
}
