// What the programs share: the limits of their input, the arrays that they read from it, and the line of a refusal.
#![tactic(auto)]

ghost use Rattle.std.specs.Prelude.{◌≡◌, ◌+◌, ◌<◌, length, take, IfOk, IfSome};
ghost use Rattle.std.specs.Io.{ReadsAtMost};
ghost use Rattle.std.specs.Io.KnownBytes.{Consumes, IsAtEnd};
ghost use Rattle.lists.specs.Buffer.{over};
ghost use Rattle.refusal.specs.Number.{number_of};
ghost use Rattle.xdr.specs.Read.{answer_of, counts_of, words_of};
ghost use Rattle.text.specs.Wrote.{Wrote};
ghost use Rattle.printing.specs.Input.{given};
ghost use Rattle.printing.specs.Limits.{max_bytes};
ghost use Rattle.printing.specs.Printed.{refused_text};

use refusal::Cause;
use std::io;
use std::io::Read;

// The bytes that may be read, and the words that they hold.
pub const MAX_BYTES: usize = 65536;

pub const MAX_WORDS: usize = MAX_BYTES / 4;

// Writes the line of a refusal, as much as the buffer holds, and answers how much that is.
#[tactic(auto, unfolding(crate::specs::Printed::refused_text))]
pub fn write_refused(cause: Cause, text: &mut [u8]) -> usize
    ensures { Wrote (refused_text (number_of cause)) text.old text.new result }
{
    text::put_line(text, b"refused", &[u32::from(cause)])
}

// Reads arrays, as many as the given number, from no more bytes than may be read. No bytes hold more words than the array.
#[tactic(auto, using(crate::proofs::Input::long_unfit, crate::proofs::Input::long_kept, crate::proofs::Input::read_short))]
pub fn read_lists(
    bytes: &[u8],
    number: u32,
    words: &mut [u32; MAX_WORDS],
) -> Result<[u32; 4], Cause>
    ensures answer { answer_of result ≡ counts_of (given number bytes.now) }
    ensures words { words.new ≡ over (words_of (given number bytes.now)) words.old }
{
    if MAX_BYTES < bytes.len() {
        return Err(Cause::BytesUnfit);
    }
    xdr::read(bytes, number, words)
}

// Reads until the buffer is full or the input ends, and answers how many bytes stand at its front: what was taken from the input, and all
// that was left of it where the buffer has room for more. A read that fails ends it with the error.
pub fn read_full<R: Read>(input: &mut R, bytes: &mut [u8]) -> io::Result<usize>
    ensures within { ReadsAtMost result bytes.new }
    ensures taken { IfOk result (λ n.
        Consumes (R.remaining input.old) (R.remaining input.new) (take n bytes.new)) }
    ensures end { IfOk result (λ n. n < length bytes.new → IsAtEnd (R.remaining input.new)) }
{
    // By `read`, since `read_exact` takes the input's end for an error.
    let mut done = 0;
    while done < bytes.len() {
        let count = input.read(&mut bytes[done..])?;
        if count == 0 {
            return Ok(done);
        }
        done += count;
    }
    Ok(done)
}

// Reads a program's input, and answers how many bytes were read: a byte more than may be read shows that there are too many.
pub fn read_input<R: Read>(input: &mut R, bytes: &mut [u8; MAX_BYTES + 1]) -> io::Result<usize>
    ensures within { ReadsAtMost result bytes.new }
    ensures front { IfOk result (λ n.
        IfSome (R.remaining input.old) (λ xs. take n bytes.new ≡ take (max_bytes + 1) xs)) }
{
    read_full(input, bytes)
}
