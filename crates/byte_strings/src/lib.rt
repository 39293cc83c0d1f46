// Byte strings: the one comparison that every layer above makes.

#![tactic(auto)]

ghost use Rattle.std.specs.Prelude.{◌≡◌};
ghost use Rattle.std.specs.Str.{bytes_eq};

// Whether `a` and `b` hold the same bytes.
// Stays a function: the project compares fixed byte strings by this name.
pub fn same(a: &[u8], b: &[u8]) -> bool
    ensures { result ≡ bytes_eq a.now b.now }
{
    a == b
}
