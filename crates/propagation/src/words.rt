// Single bits of words and of sets. Inner: callers keep items and options below 32.
ghost use Rattle.std.specs.Prelude.{◌≡◌, ℕ, ◌<◌, not, ◌&&◌, ◌||◌, ◌==◌};
ghost use Rattle.bits.specs.Bits.{bit};
ghost use Rattle.levels.specs.Sets.{words};

// Sets bit k if `on`, without a branch.
pub fn put_bit(word: u32, k: usize, on: bool) -> u32
    requires { k < 32 }
    ensures { (x : ℕ) → bit result x ≡ (bit word x || (on && k == x)) }
{
    word | (u32::from(on) << k)
}

pub fn without_bit(word: u32, k: usize) -> u32
    requires { k < 32 }
    ensures { (x : ℕ) → bit result x ≡ (bit word x && not (k == x)) }
{
    word ^ (word & (1 << k))
}

// Takes option a of item i out of the set.
pub fn take_out(set: &mut [u32; 32], i: usize, a: usize)
    requires { (i < 32) × (a < 32) }
    ensures { (j b : ℕ) → words set.new j b ≡ (words set.old j b && not (i == j && a == b)) }
{
    set[i] = without_bit(set[i], a);
}
