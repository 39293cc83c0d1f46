// The checks that opening and setting up share, in their order.

ghost use Rattle.std.specs.Prelude.{◌≡◌, ◌≤◌, IfOk};
ghost use Rattle.opening.specs.Checks.{version_from, key_length, standard, listed_tags, tags_of, admitted, limited, limit_of};

use crate::fields::Fields;
use crate::file::Tags;
use crate::refusal::{Field, Refusal};
use byte_strings::same;
use filters::lookup::look_up;
use filters::series::Series;
use filters::tag::Tag;
use keys::{KeySize, Revision, RevisionError};

// V: which algorithms protect the file.
#[derive(Clone, Copy)]
pub enum Version {
    V1,
    V2,
    V4,
}

impl TryFrom<u8> for Version {
    type Error = Refusal;

    ghost try_from_gives = { λ v version. version ≡ version_from v };

    fn try_from(v: u8) -> Result<Version, Refusal> {
        match v {
            1 => Ok(Version::V1),
            2 => Ok(Version::V2),
            4 => Ok(Version::V4),
            _ => Err(Refusal::OtherV),
        }
    }
}

impl Version {
    // The file key's length in bytes: an eighth of Length, the remainder dropped.
    fn key_length(self, length: Option<u16>) -> usize
        ensures { result ≡ key_length self length }
    {
        let bits = match self {
            Version::V1 => 40,
            Version::V2 => length.unwrap_or(40),
            Version::V4 => length.unwrap_or(128),
        };
        usize::from(bits / 8)
    }
}

// What the first checks leave.
#[derive(Clone, Copy)]
pub struct Head {
    pub(crate) version: Version,
    // Stays a number, as its field has it: `limit` judges it, behind the tags and the length.
    pub(crate) r: u8,
    pub(crate) n: usize,
    pub(crate) tags: Tags,
}

// What the last checks of numbers leave.
#[derive(Clone, Copy)]
pub struct Limits {
    pub(crate) revision: Revision,
    pub(crate) size: KeySize,
}

// Filter names the standard security handler.
fn check_filter(fields: &Fields) -> Result<(), Refusal>
    ensures { result ≡ standard fields.now }
{
    let Some(filter) = fields.filter else {
        return Err(Refusal::Missing(Field::Filter));
    };
    if !same(filter, b"Standard") {
        return Err(Refusal::NotStandard);
    }
    Ok(())
}

// The tags by the filter table.
fn listed_tags<S: Series>(series: &S, fields: &Fields) -> Result<Tags, Refusal>
    ensures { result ≡ listed_tags (S.meaning series.now) fields.now }
{
    if let Some(i) = fields.table.bad_entry() {
        return Err(Refusal::BadTable(i));
    }
    let Some(stm_f) = fields.stm_f else {
        return Err(Refusal::Missing(Field::StmF));
    };
    let Some(str_f) = fields.str_f else {
        return Err(Refusal::Missing(Field::StrF));
    };
    let string = look_up(series, fields.table, str_f).tag();
    let stream = look_up(series, fields.table, stm_f).tag();
    Ok(Tags { string, stream })
}

// The tags: RC4 under V 1 and 2, and by the filter table under V 4.
fn tags<S: Series>(series: &S, fields: &Fields, version: Version) -> Result<Tags, Refusal>
    ensures { result ≡ tags_of (S.meaning series.now) fields.now version }
{
    match version {
        Version::V1 | Version::V2 => Ok(Tags {
            string: Some(Tag::V2),
            stream: Some(Tag::V2),
        }),
        Version::V4 => listed_tags(series, fields),
    }
}

// The checks from Filter to the key's length.
// Stays in three contracts, here and below, that n is not 0: the definition of the checks makes a `Head` without a proof.
pub(crate) fn admit<S: Series>(series: &S, fields: &Fields) -> Result<Head, Refusal>
    ensures is { result ≡ admitted (S.meaning series.now) fields.now }
    ensures some { IfOk result (λ h. 1 ≤ h.n) }
{
    check_filter(fields)?;
    let Some(v) = fields.v else {
        return Err(Refusal::Missing(Field::V));
    };
    let Some(r) = fields.r else {
        return Err(Refusal::Missing(Field::R));
    };
    let version = Version::try_from(v)?;
    let tags = tags(series, fields, version)?;
    let n = version.key_length(fields.length);
    if n == 0 {
        return Err(Refusal::ShortLength);
    }
    Ok(Head {
        version,
        r,
        n,
        tags,
    })
}

// The checks of R and of the key's length.
pub(crate) fn limit(head: Head) -> Result<Limits, Refusal>
    requires { 1 ≤ head.n }
    ensures { limit_of result ≡ limited head }
{
    match (Revision::try_from(head.r), KeySize::new(head.n)) {
        (Err(RevisionError::TooHigh), _) => Err(Refusal::LateR),
        (_, None) => Err(Refusal::LongLength),
        (Err(RevisionError::TooLow), _) => Err(Refusal::EarlyR),
        (Ok(revision), Some(size)) => Ok(Limits { revision, size }),
    }
}
