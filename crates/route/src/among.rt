//! Looking for a number in a row.
ghost use Rattle.std.specs.Prelude.{◌≡◌};
ghost use Rattle.route.specs.Numbers.{is_in};

/// Whether `n` stands in the row: a network on a path, a community on a route.
pub fn is_among(row: &[u32], n: u32) -> bool
    ensures { result ≡ is_in n row.now }
{
    row.iter().any(|x| *x == n)
}
