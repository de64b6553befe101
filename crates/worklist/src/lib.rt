// A set of numbers as bits in words of 64: which are marked, and which of these wait to be looked at. The words in which some
// wait are on a stack, each once.
#![tactic(auto)]

ghost use Rattle.std.specs.Prelude.{eqb, length, ◌≡◌, ◌*◌, ◌/◌, ◌<◌, ◌≤◌};
ghost use Rattle.worklist.specs.Table.{AddsOnly, Cleared, ForStacked, ForTable, InWord, SomeStacked, SomeTable, TakesNumber, TakesWord, board_of, mark as marked};

use meaning::WORD_BITS;

// The words of the set, those of its numbers that wait, and the words in which some wait: `top` of them.
#[derive(Drop)]
pub struct Board<'a> {
    pub marked: &'a mut [u64],
    pub waiting: &'a mut [u64],
    pub stack: &'a mut [u16],
    pub top: usize,
}

impl<'a> Board<'a> {
    // Marks the numbers of the word w that the bits say. Those that were not marked wait, and the word is on the stack.
    pub fn mark_word(&mut self, w: usize, bits: u64)
        requires { SomeTable w (board_of self.old) }
        ensures { ForTable w (board_of self.old) (λ n. AddsOnly n (InWord w bits) (board_of self.old) (board_of self.new)) }
    {
        let old = self.marked[w];
        let all = old | bits;
        if all == old {
            return;
        }
        self.marked[w] = all;
        let before = self.waiting[w];
        self.waiting[w] = before | (old ^ all);
        if before != 0 {
            return;
        }
        self.stack[self.top] = w as u16;
        self.top += 1;
    }

    // Marks x.
    pub fn mark(&mut self, x: usize)
        requires { SomeTable (x / 64) (board_of self.old) }
        ensures { ForTable (x / 64) (board_of self.old) (λ n. AddsOnly n (λ y. y ≡ x) (board_of self.old) (board_of self.new)) }
    {
        self.mark_word(x / WORD_BITS, 1u64 << (x % WORD_BITS));
    }

    // Takes a number that waits. None says that none waits: the board is as it was.
    pub fn take(&mut self) -> Option<usize>
        requires { SomeStacked (board_of self.old) }
        ensures { ForStacked (board_of self.old) (λ n. TakesNumber n result (board_of self.old) (board_of self.new)) }
    {
        if self.top == 0 {
            return None;
        }
        let w = self.stack[self.top - 1] as usize;
        let all = self.waiting[w];
        // Members lowest first, by trailing_zeros: a form that document 01 names.
        let x = w * WORD_BITS + u64::trailing_zeros(all) as usize;
        let left = all & (all - 1);
        self.waiting[w] = left;
        if left == 0 {
            self.top -= 1;
        }
        Some(x)
    }

    // Takes the numbers that wait in one word: the word, and bits that say which. None says that none waits: the board is as
    // it was.
    pub fn take_word(&mut self) -> Option<(usize, u64)>
        requires { SomeStacked (board_of self.old) }
        ensures { ForStacked (board_of self.old) (λ n. TakesWord n result (board_of self.old) (board_of self.new)) }
    {
        if self.top == 0 {
            return None;
        }
        self.top -= 1;
        let w = self.stack[self.top] as usize;
        let bits = self.waiting[w];
        self.waiting[w] = 0;
        Some((w, bits))
    }
}

// Whether x is in the table.
pub fn has(table: &[u64], x: usize) -> bool
    requires { x / 64 < length table.now }
    ensures { result ≡ eqb (marked table.now x) 1 }
{
    (table[x / WORD_BITS] >> (x % WORD_BITS)) % 2 == 1
}

// Takes the numbers of the first words out of the table.
pub fn clear_words(table: &mut [u64], words: usize)
    requires { words ≤ length table.old }
    ensures { Cleared (words * 64) table.old table.new }
{
    table[..words].fill(0);
}
