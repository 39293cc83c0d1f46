// Opening.

ghost use Rattle.std.specs.Prelude.{◌≡◌, length};
ghost use Rattle.keys.specs.File.{read};
ghost use Rattle.opening.specs.File.{read_file};
ghost use Rattle.opening.specs.Open.{authenticated, opened, Opens};

use crate::checks::{Head, admit};
use crate::fields::Fields;
use crate::file::File;
use crate::inputs::key_inputs;
use crate::refusal::{Field, Refusal};
use crate::work::{WorkArea, padded};
use filters::series::Series;
use keys::{Inputs, agrees_with, file_key};

// The file, if U agrees with the padded password.
fn authenticate(head: Head, inputs: &Inputs, padded: &[u8], u: &[u8]) -> Result<File, Refusal>
    ensures { read_file result ≡ authenticated head (read inputs.now) padded.now u.now }
{
    let key = file_key(inputs, padded);
    if !agrees_with(inputs.revision, inputs.id, &key, u) {
        return Err(Refusal::WrongPassword);
    }
    Ok(File::new(head, &key))
}

// The checks in their order, and then that of U. The padded password is left in the area.
// Stays beside `set_up_in`, with the four steps of both: each shows the order of its checks, with U or without.
fn open_in<S: Series>(
    series: &S,
    fields: &Fields,
    password: &[u8],
    area: &mut [u8],
) -> Result<File, Refusal>
    ensures { read_file result ≡ opened (S.meaning series.now) fields.now password.now (length area.old) }
{
    let padded = padded(password, area)?;
    let head = admit(series, fields)?;
    let Some(o) = fields.o else {
        return Err(Refusal::Missing(Field::O));
    };
    let Some(u) = fields.u else {
        return Err(Refusal::Missing(Field::U));
    };
    let inputs = key_inputs(fields, head, o)?;
    authenticate(head, &inputs, padded, u)
}

// Opens a file with the user password. The work area, of 32 bytes or more, is all zero afterwards.
// Stays with its parameters apart, as setting up: a struct of them would be made for this one call.
pub fn open<S: Series>(
    series: &S,
    fields: &Fields,
    password: &[u8],
    work: &mut [u8],
) -> Result<File, Refusal>
    ensures { Opens (S.meaning series.now) fields.now password.now work.old result work.new }
{
    let area = WorkArea { bytes: work };
    open_in(series, fields, password, area.bytes)
}
