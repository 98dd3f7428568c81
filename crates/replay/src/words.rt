// A record's words, as numbers and as floats.

ghost use Rattle.std.specs.Prelude.{◌≡◌, ◌↔◌, map, IsTrue};
ghost use Rattle.std.specs.Int.{w64, cast_signed, from_le_bytes};
ghost use Rattle.replay.specs.Records.{left, after, next_word, next_three, next_float, next_floats, bits_of, words_of, floats_of, overlaid};

// What is left of a record: its words, and the floats of the same bits. Past its end a word is 0, a float a NaN, and a slice is as long as the record has it.
#[derive(Clone, Copy)]
pub struct Record<'a> {
    pub words: &'a [u64],
    pub floats: &'a [f64],
}

impl<'a> Record<'a> {
    fn skip(&mut self, n: usize)
        ensures { left self.new ≡ after n (left self.old) }
    {
        self.words = self.words.get(n..).unwrap_or(&[]);
        self.floats = self.floats.get(n..).unwrap_or(&[]);
    }

    pub fn word(&mut self) -> u64
        ensures value { result ≡ next_word (left self.old) }
        ensures rest { left self.new ≡ after 1 (left self.old) }
    {
        let word = self.words.first().copied().unwrap_or(0);
        self.skip(1);
        word
    }

    // A word as an index or a count.
    pub fn count(&mut self) -> usize
        ensures value { result ≡ next_word (left self.old) }
        ensures rest { left self.new ≡ after 1 (left self.old) }
    {
        self.word() as usize
    }

    pub fn signed(&mut self) -> i64
        ensures value { result ≡ cast_signed w64 (next_word (left self.old)) }
        ensures rest { left self.new ≡ after 1 (left self.old) }
    {
        self.word().cast_signed()
    }

    pub fn float(&mut self) -> f64
        ensures value { result ≡ next_float (left self.old) }
        ensures rest { left self.new ≡ after 1 (left self.old) }
    {
        let float = self.floats.first().copied().unwrap_or(f64::NAN);
        self.skip(1);
        float
    }

    pub fn floats(&mut self, n: usize) -> &'a [f64]
        ensures value { result.now ≡ next_floats n (left self.old) }
        ensures rest { left self.new ≡ after n (left self.old) }
    {
        let floats = self.floats;
        self.skip(n);
        &floats[..n.min(floats.len())]
    }

    // Whether these are the next words; what stands after them makes no difference.
    pub fn has_words(&mut self, words: &[u64; 3]) -> bool
        ensures { IsTrue result ↔ (next_three (left self.old) ≡ words.now) }
    {
        let next = [self.word(), self.word(), self.word()];
        next == *words
    }

    // Whether the bits of these numbers are what is left, a NaN's its own.
    #[tactic(auto, using(crate::proofs::Records::bits_turn, crate::proofs::Records::bits_at))]
    pub fn has_floats(self, numbers: &[f64]) -> bool
        ensures { IsTrue result ↔ (self.entry.words.now ≡ bits_of numbers.now) }
    {
        if numbers.len() != self.words.len() {
            return false;
        }
        for (i, x) in numbers.iter().enumerate() {
            if std::num::f64_to_bits_with_nan(*x) != self.words[i] {
                return false;
            }
        }
        true
    }
}

// By index in both: of what an adapter of `iter_mut` lends, a proof knows nothing after the loop.
#[tactic(auto, using(crate::proofs::Records::overlaid_turn, crate::proofs::Records::overlaid_done))]
fn read_words(eights: &[[u8; 8]], words: &mut [u64])
    ensures { words.new ≡ overlaid (map (from_le_bytes w64) eights.now) words.old }
{
    for i in 0..eights.len().min(words.len()) {
        words[i] = u64::from_le_bytes(eights[i]);
    }
}

#[tactic(auto, using(crate::proofs::Records::overlaid_turn, crate::proofs::Records::overlaid_done))]
fn read_floats(words: &[u64], floats: &mut [f64])
    ensures { floats.new ≡ overlaid (floats_of words.now) floats.old }
{
    for i in 0..words.len().min(floats.len()) {
        floats[i] = std::num::f64_from_bits_with_nan(words[i]);
    }
}

// The words of these bytes, the lowest byte first, and the floats of the same bits.
pub fn decode(bytes: &[u8], words: &mut [u64], floats: &mut [f64])
    ensures words_after { words.new ≡ overlaid (words_of bytes.now) words.old }
    ensures floats_after { floats.new ≡ overlaid (floats_of words.new) floats.old }
{
    let (eights, _) = bytes.as_chunks::<8>();
    read_words(eights, words);
    read_floats(words, floats);
}
