// Whether a buffer has the space that a call needs.
ghost use Rattle.std.specs.Prelude.{◌≡◌, ℕ};
ghost use Rattle.methods.specs.Running.{space, told};
ghost use Rattle.reader.specs.Space.{Spaced};

use methods::running::Running;
use opening::refusal::Refusal;

// Refuses where the buffer is shorter than needed. A length above the largest `usize` is none, and no buffer has it.
pub(crate) fn check_space(needed: Option<usize>, len: usize) -> Result<(), Refusal>
    ensures { (n : ℕ) → needed ≡ told n → Spaced n len result }
{
    match needed {
        Some(n) if n <= len => Ok(()),
        _ => Err(Refusal::NoSpace),
    }
}

// The space for restoring `n` bytes from here: what one feeding of all hands out, and the closing space after it.
pub(crate) fn space_for<S: Running>(state: &S, n: usize) -> Option<usize>
    ensures { result ≡ told (space (S.Running.means state.now) n) }
{
    let handed = state.feed_len(n)?;
    let closing = state.close_len_after(n)?;
    handed.checked_add(closing)
}
