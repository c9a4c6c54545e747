// Lines of a word and decimal numbers, as ASCII bytes at the front of a lent buffer. Each function writes as much as the buffer holds and
// answers how much that is, so that one line can follow another without a test between them.
#![tactic(auto)]

ghost use Rattle.text.specs.Lines.{number_text, numbers_text, line_text};
ghost use Rattle.text.specs.Wrote.{Wrote};

// Writes a number after a space.
fn put_number(buffer: &mut [u8], number: u32) -> usize
    ensures { Wrote (number_text number) buffer.old buffer.new result }
{
    let mut digits = [0u8; 20];
    let count = io::decimal(u64::from(number), &mut digits);
    let at = lists::put(buffer, b" ");
    at + lists::put(&mut buffer[at..], &digits[..count])
}

// Writes numbers, each after a space.
fn put_numbers(buffer: &mut [u8], numbers: &[u32]) -> usize
    ensures { Wrote (numbers_text numbers.now) buffer.old buffer.new result }
{
    let mut at = 0;
    for &number in numbers {
        at += put_number(&mut buffer[at..], number);
    }
    at
}

// Writes a line: a word, numbers and the line's end.
pub fn put_line(buffer: &mut [u8], word: &[u8], numbers: &[u32]) -> usize
    ensures { Wrote (line_text word.now numbers.now) buffer.old buffer.new result }
{
    let first = lists::put(buffer, word);
    let last = first + put_numbers(&mut buffer[first..], numbers);
    last + lists::put(&mut buffer[last..], b"\n")
}
