// A list of few words by value: what an operation answers where the answer is a list, as the outputs of a circuit, or the coins that come before
// any message. It stands beside the enum that says whether the operation refuses, since no enum holds an array.
#![tactic(auto)]

ghost use Rattle.std.specs.Prelude.{◌≡◌, take};
ghost use Rattle.circuit.specs.Limits.{max_outputs};
ghost use Rattle.short_list.specs.Short.{short, list_of};

use layout::MAX_OUTPUTS;

// Its words are the first `count` of the row, and the rest of the row is 0.
#[repr(C)]
#[derive(Clone, Copy, PartialEq, Eq, Debug)]
pub struct ShortList {
    pub count: usize,
    pub words: [u32; MAX_OUTPUTS],
}

impl ShortList {
    // The list of these words; of more than a row holds, the first.
    pub fn new(words: &[u32]) -> ShortList
        ensures { result ≡ short (take max_outputs words.now) }
    {
        let mut row = [0u32; MAX_OUTPUTS];
        let count = lists::put(&mut row, words);
        ShortList { count, words: row }
    }

    // The list.
    pub fn list(&self) -> &[u32]
        ensures { result.now ≡ list_of self.now }
    {
        &self.words[..self.count.min(MAX_OUTPUTS)]
    }
}
