// The words of options that a session keeps: which are struck and which are kept.
ghost use Rattle.std.specs.Prelude.{◌≡◌, ◌<◌};
ghost use Rattle.levels.specs.Sets.{words};
ghost use Rattle.runs.specs.State.{nothing, unstruck};
ghost use Rattle.sessions.specs.Words.{with_word, without_word};

use crate::start::unstruck_words;
use books::rule::RuleBook;

#[derive(Clone, Copy)]
pub struct Marks {
    pub struck: [u32; 32],
    pub kept: [u32; 32],
}

// The bound of i, here and below, is one of a number, which no set could carry.
// These options of item i join the set.
fn put(set: &mut [u32; 32], i: usize, options: u32)
    requires { i < 32 }
    ensures { words set.new ≡ with_word (words set.old) i options }
{
    set[i] |= options;
}

// These options of item i leave the set.
fn take(set: &mut [u32; 32], i: usize, options: u32)
    requires { i < 32 }
    ensures { words set.new ≡ without_word (words set.old) i options }
{
    set[i] &= !options;
}

impl Marks {
    // Nothing is struck, and all options are kept.
    pub(crate) fn new<B: RuleBook>(book: &B) -> Marks
        ensures struck { words result.struck ≡ nothing }
        ensures kept { words result.kept ≡ unstruck (B.meaning book.now) nothing }
    {
        let struck = [0; 32];
        Marks {
            struck,
            kept: unstruck_words(book, &struck),
        }
    }

    // These options of item i are struck, and kept no more.
    pub(crate) fn strike(&mut self, i: usize, options: u32)
        requires { i < 32 }
        ensures struck { words self.new.struck ≡ with_word (words self.old.struck) i options }
        ensures kept { words self.new.kept ≡ without_word (words self.old.kept) i options }
    {
        put(&mut self.struck, i, options);
        take(&mut self.kept, i, options);
    }

    // These options of item i are struck no more, and all options that are not struck are kept.
    pub(crate) fn restore<B: RuleBook>(&mut self, book: &B, i: usize, options: u32)
        requires { i < 32 }
        ensures struck { words self.new.struck ≡ without_word (words self.old.struck) i options }
        ensures kept { words self.new.kept ≡ unstruck (B.meaning book.now) (words self.new.struck) }
    {
        take(&mut self.struck, i, options);
        let kept = unstruck_words(book, &self.struck);
        self.kept = kept;
    }
}
