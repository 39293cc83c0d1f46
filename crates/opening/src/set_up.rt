// Setting up: a new file, and the U by which it opens.

ghost use Rattle.std.specs.Prelude.{length};
ghost use Rattle.keys.specs.File.{read};
ghost use Rattle.opening.specs.SetUp.{finished, set_up, Makes, SetsUp};

use crate::checks::{Head, admit};
use crate::fields::Fields;
use crate::file::File;
use crate::inputs::key_inputs;
use crate::refusal::{Field, Refusal};
use crate::work::{WorkArea, padded};
use filters::series::Series;
use keys::{Inputs, file_key, user_entry};

// The file under the padded password, and its U in the buffer, if that has space for it.
fn finish(head: Head, inputs: &Inputs, padded: &[u8], out: &mut [u8]) -> Result<File, Refusal>
    ensures { Makes (finished head (read inputs.now) padded.now (length out.old)) result out.old out.new }
{
    let Some(front) = out.first_chunk_mut::<32>() else {
        return Err(Refusal::USpace);
    };
    let key = file_key(inputs, padded);
    *front = user_entry(inputs.revision, inputs.id, &key);
    Ok(File::new(head, &key))
}

// The checks in their order, and then that of the space. The padded password is left in the area.
fn set_up_in<S: Series>(
    series: &S,
    fields: &Fields,
    password: &[u8],
    area: &mut [u8],
    out: &mut [u8],
) -> Result<File, Refusal>
    ensures { Makes (set_up (S.meaning series.now) fields.now password.now (length area.old) (length out.old)) result out.old out.new }
{
    let padded = padded(password, area)?;
    let head = admit(series, fields)?;
    let Some(o) = fields.o else {
        return Err(Refusal::Missing(Field::O));
    };
    let inputs = key_inputs(fields, head, o)?;
    finish(head, &inputs, padded, out)
}

// Sets a file up under the user password, and writes its U, 32 bytes. The fields' own U plays no part. The work area,
// of 32 bytes or more, is all zero afterwards.
pub fn set_up<S: Series>(
    series: &S,
    fields: &Fields,
    password: &[u8],
    work: &mut [u8],
    out: &mut [u8],
) -> Result<File, Refusal>
    ensures { SetsUp (S.meaning series.now) fields.now password.now work.old out.old result work.new out.new }
{
    let area = WorkArea { bytes: work };
    set_up_in(series, fields, password, area.bytes, out)
}
