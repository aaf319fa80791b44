// Sets that are handed over as words of option bits, one word for each item.
ghost use Rattle.std.specs.Prelude.{◌≡◌};
ghost use Rattle.levels.specs.Sets.{words};

use bits::bit::has_bit;

// Whether option a of item i is in the set.
pub fn contains(set: &[u32], i: usize, a: usize) -> bool
    ensures { result ≡ words set.now i a }
{
    set.get(i).is_some_and(|word| has_bit(*word, a))
}
