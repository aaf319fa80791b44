// The limits of every book made of parts; an inner file, which asks that the counts are long enough.
ghost use Rattle.std.specs.Prelude.{◌≡◌, ◌≤◌, length};
ghost use Rattle.meaning.specs.Limits.{counts_right, limits_right};

// Items within 1 to 32, and the edition within 1 to 9999.
pub fn limits_hold(edition: u32, items: usize) -> bool
    ensures { result ≡ limits_right edition items }
{
    items >= 1 && items <= 32 && edition >= 1 && edition <= 9999
}

// Each count within 1 to 32, by the item's number, as the definition goes.
pub fn counts_hold(items: usize, counts: &[u8]) -> bool
    requires { items ≤ length counts.now }
    ensures { result ≡ counts_right items counts.now }
{
    (0..items).all(|i| counts[i] >= 1 && counts[i] <= 32)
}
