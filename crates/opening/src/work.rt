// The lent work area.

ghost use Rattle.std.specs.Prelude.{◌≡◌, ◌<◌, ◌≤◌, length, MatchResult};
ghost use Rattle.byte_strings.specs.Bytes.{zeros};
ghost use Rattle.keys.specs.Password.{padded};
ghost use Rattle.opening.specs.declared.refusal.Refusal.TheVariants.{WorkSpace};

use crate::refusal::Refusal;
use keys::pad_password;

// Holds the lent bytes while the padded password stands in them. They are all zero once it ends, however that is.
pub struct WorkArea<'a> {
    pub(crate) bytes: &'a mut [u8],
}

impl Drop for WorkArea<'_> {
    fn drop(self)
        ensures { self.exit.0.now ≡ zeros (length self.entry.bytes.now) }
    {
        self.bytes.fill(0);
        let WorkArea { bytes: _ } = self;
    }
}

// The padded password, which is left at the front of the area.
pub(crate) fn padded<'a>(password: &[u8], area: &'a mut [u8]) -> Result<&'a [u8], Refusal>
    ensures { MatchResult result (λ p. (32 ≤ length area.old) × (p.now ≡ padded password.now)) (λ e. (length area.old < 32) × (e ≡ WorkSpace)) }
{
    let n = pad_password(password, area).ok_or(Refusal::WorkSpace)?;
    Ok(&area[0..n])
}
