// What Algorithm 2 derives the file key from, beside the password.

ghost use Rattle.std.specs.Prelude.{◌≡◌, ◌≤◌};
ghost use Rattle.opening.specs.Inputs.{read_inputs, derived};

use crate::checks::{Head, limit};
use crate::fields::Fields;
use crate::refusal::{Field, Refusal};
use keys::Inputs;

// The checks of P, of R and of the key's length, and what they leave, with O.
pub(crate) fn key_inputs<'a>(
    fields: &Fields<'a>,
    head: Head,
    o: &'a [u8],
) -> Result<Inputs<'a>, Refusal>
    requires { 1 ≤ head.n }
    ensures { read_inputs result ≡ derived fields.now head o.now }
{
    let Some(p) = fields.p else {
        return Err(Refusal::Missing(Field::P));
    };
    let limits = limit(head)?;
    Ok(Inputs {
        revision: limits.revision,
        size: limits.size,
        o,
        p,
        id: fields.id,
        metadata: fields.encrypts_metadata(),
    })
}
