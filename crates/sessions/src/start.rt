// The options of a book as words.
ghost use Rattle.std.specs.Prelude.{◌≡◌, ℕ, ◌<◌, ◌≤◌, not, ◌&&◌, nat_lt, ◌==◌};
ghost use Rattle.bits.specs.Bits.{bit};
ghost use Rattle.levels.specs.Sets.{words};
ghost use Rattle.runs.specs.State.{is_option, unstruck};

use books::rule::RuleBook;
use std::array;

// The word whose lowest n bits are set; the bound is one of a number.
fn low_bits(n: usize) -> u32
    requires { n ≤ 32 }
    ensures { (a : ℕ) → bit result a ≡ nat_lt a n }
{
    // With n up to 32 it fits, which the type u64 does not say.
    ((1u64 << n) - 1) as u32
}

// The word of option a alone; 0 where a word has no such bit.
pub(crate) fn one_option(a: usize) -> u32
    ensures { (b : ℕ) → bit result b ≡ (a == b && nat_lt b 32) }
{
    if a < 32 { 1 << a } else { 0 }
}

// All options of item i; none where there is no such item.
pub fn all_options<B: RuleBook>(book: &B, i: usize) -> u32
    ensures { (a : ℕ) → bit result a ≡ is_option (B.meaning book.now) i a }
{
    low_bits(book.options(i))
}

// The options of item i but a.
pub(crate) fn other_options<B: RuleBook>(book: &B, i: usize, a: usize) -> u32
    ensures { (b : ℕ) → bit result b ≡ (not (a == b) && is_option (B.meaning book.now) i b) }
{
    all_options(book, i) & !one_option(a)
}

// The options of item i that are not struck; likewise.
fn unstruck_options<B: RuleBook>(book: &B, struck: &[u32; 32], i: usize) -> u32
    requires { i < 32 }
    ensures { (a : ℕ) → bit result a ≡ unstruck (B.meaning book.now) (words struck.now) i a }
{
    all_options(book, i) & !struck[i]
}

// All options that are not struck.
pub fn unstruck_words<B: RuleBook>(book: &B, struck: &[u32; 32]) -> [u32; 32]
    ensures { words result ≡ unstruck (B.meaning book.now) (words struck.now) }
{
    array::from_fn(|i| unstruck_options(book, struck, i))
}
