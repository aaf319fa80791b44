ghost use Rattle.std.specs.Prelude.{◌≡◌};
ghost use Rattle.bits.specs.Bits.{bit};

// Whether bit k of a word is set; there is none from 32 on.
pub fn has_bit(word: u32, k: usize) -> bool
    ensures { result ≡ bit word k }
{
    k < 32 && (word >> k) % 2 == 1
}
