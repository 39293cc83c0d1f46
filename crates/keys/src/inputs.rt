// What a file key is derived from.
ghost use Rattle.std.specs.Prelude.{◌≡◌};
ghost use Rattle.keys.specs.Inputs.{revision_from};

use crate::size::KeySize;

// The revision of the standard security handler.
#[derive(Clone, Copy, Debug, PartialEq, Eq)]
pub enum Revision {
    R2,
    R3,
    R4,
}

// Why a number is no revision: they go from 2 to 4.
#[derive(Clone, Copy, Debug, PartialEq, Eq)]
pub enum RevisionError {
    TooLow,
    TooHigh,
}

impl TryFrom<u8> for Revision {
    type Error = RevisionError;

    ghost try_from_gives = { λ r revision. revision ≡ revision_from r };

    fn try_from(r: u8) -> Result<Revision, RevisionError> {
        match r {
            0..=1 => Err(RevisionError::TooLow),
            2 => Ok(Revision::R2),
            3 => Ok(Revision::R3),
            4 => Ok(Revision::R4),
            _ => Err(RevisionError::TooHigh),
        }
    }
}

// What a file key is derived from, beside the password.
#[derive(Clone, Copy)]
pub struct Inputs<'a> {
    pub revision: Revision,
    pub size: KeySize,
    pub o: &'a [u8],
    pub p: i64,
    // the file identifier, which may be empty
    pub id: &'a [u8],
    // whether metadata is encrypted
    pub metadata: bool,
}
