// A page: a buffer that is filled from its start, and the offset where the next byte goes. What does not fit is left out.
ghost use Rattle.std.specs.Prelude.{[], ◌∷◌};
ghost use Rattle.listing.specs.Decimal.{decimal, labelled};
ghost use Rattle.listing.specs.Page.{HasPut};

use itoa::Buffer;

#[derive(Drop)]
pub(crate) struct Page<'a> {
    pub(crate) text: &'a mut [u8],
    pub(crate) at: usize,
}

impl Page<'_> {
    // Puts one byte.
    #[tactic(auto, unfolding(crate::specs::Page::put, crate::specs::Page::puts))]
    pub(crate) fn put(&mut self, byte: u8)
        ensures { HasPut self.old (byte ∷ []) self.new }
    {
        if self.at < self.text.len() {
            self.text[self.at] = byte;
            self.at += 1;
        }
    }

    // Puts a word, byte by byte.
    #[tactic(auto, using(crate::proofs::Laws::Page::puts_none, crate::proofs::Laws::Page::puts_next))]
    pub(crate) fn put_word(&mut self, word: &[u8])
        ensures { HasPut self.old word.now self.new }
    {
        for byte in word {
            self.put(*byte);
        }
    }

    // Puts a number in decimal.
    #[tactic(auto, using(crate::proofs::Laws::Decimal::decimal_is_std))]
    pub(crate) fn put_decimal(&mut self, n: usize)
        ensures { HasPut self.old (decimal n) self.new }
    {
        let mut digits = Buffer::new();
        self.put_word(digits.format(n).as_bytes());
    }

    // Puts a word and a number behind it.
    #[tactic(auto, using(crate::proofs::Laws::Page::puts_append))]
    pub(crate) fn put_labelled(&mut self, word: &[u8], n: usize)
        ensures { HasPut self.old (labelled word.now n) self.new }
    {
        self.put_word(word);
        self.put_decimal(n);
    }
}
