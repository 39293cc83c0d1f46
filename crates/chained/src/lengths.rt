// How much a chained restoring has handed out, and what closing it wants, by the number of bytes fed to it.
ghost use Rattle.std.specs.Prelude.{◌≡◌};
ghost use Rattle.chained.specs.ChainedMethod.{handed_out, held_back};
ghost use Rattle.chained.specs.Lengths.{ByLength, FourPieces};

// The two laws of what is out.
// Stays in three contracts: a law of numbers, which no value carries, and which both lengths promise.
fn length_laws()
    ensures law { ByLength }
    ensures pieces { FourPieces }
{}

// How many bytes are out once `n` bytes were fed, in whatever pieces.
pub fn handed_out(n: usize) -> usize
    ensures count { result ≡ handed_out n }
    ensures law { ByLength }
    ensures pieces { FourPieces }
{
    length_laws();
    (n.saturating_sub(16) / 16).saturating_sub(1) * 16
}

// The closing space once `n` bytes were fed, in whatever pieces.
pub fn held_back(n: usize) -> usize
    ensures space { result ≡ held_back n }
    ensures law { ByLength }
{
    length_laws();
    if n < 32 { 0 } else { 16 }
}
