// Definitions and laws about lists; and what the other crates do with lists: a word of one, and items over the front of another.
#![tactic(auto)]

ghost use Rattle.std.specs.Prelude.{◌≡◌, ◌≤◌, min, length, take, get_or};
ghost use Rattle.lists.specs.Buffer.{over};

// A list's word, 0 past its end.
pub fn word(list: &[u32], at: usize) -> u32
    ensures { result ≡ get_or list.now at 0 }
{
    list.get(at).copied().unwrap_or(0)
}

// Writes items over the front of a buffer, as many as it holds, and answers how many. By place: `copy_from_slice` may be a call of `memmove`, which
// the library would then need from outside.
pub fn put<T: Copy>(buffer: &mut [T], items: &[T]) -> usize
    ensures within { result ≤ length buffer.new }
    ensures count { result ≡ min (length items.now) (length buffer.old) }
    ensures items { buffer.new ≡ over (take (length buffer.old) items.now) buffer.old }
{
    let count = items.len().min(buffer.len());
    for (i, &item) in items[..count].iter().enumerate() {
        buffer[i] = item;
    }
    count
}
