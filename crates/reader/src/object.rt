// Protecting and restoring the objects of a file, and starting runs on them: by the file's tag for the target, or by a
// method that is handed in, and then the tag plays no part.
ghost use Rattle.std.specs.Prelude.{◌≡◌};
ghost use Rattle.opening.specs.File.{viewed};
ghost use Rattle.reader.specs.Object.{Protects, Restores, Begins, tagged, handed};
ghost use Rattle.reader.specs.Tag.{tag_means};

use crate::key::Keyed;
use crate::output::{Mark, Output};
use crate::run::Run;
use crate::tag::{mark_of, method_of};
use methods::method::CryptMethod;
use opening::file::{File, Target};
use opening::refusal::Refusal;
use tagged::tag::DecryptorState;

// An object by its numbers.
#[derive(Clone, Copy)]
pub struct Object {
    pub number: i32,
    pub generation: i32,
}

// Protects by a method.
// Stays beside `protect`, with its parameters apart, as the other pairs: what the two of a pair share is `Keyed`.
pub fn protect_with<M: CryptMethod>(
    file: &File,
    method: &M,
    object: Object,
    vector: &[u8; 16],
    data: &[u8],
    out: &mut [u8],
) -> Result<usize, Refusal>
    ensures { Protects (viewed file.now) (handed (M.CryptMethod.scheme method.now)) object vector.now «data».now out.old result out.new }
{
    Keyed::new(file, method, object).protect(vector, data, out)
}

// Protects by the file's tag for the target, which must be resolved.
pub fn protect(
    file: &File,
    target: Target,
    object: Object,
    vector: &[u8; 16],
    data: &[u8],
    out: &mut [u8],
) -> Result<usize, Refusal>
    ensures { Protects (viewed file.now) (tagged target) object vector.now «data».now out.old result out.new }
{
    let tag = file.tag(target);
    match tag {
        Some(_) => protect_with(file, &method_of(tag), object, vector, data, out),
        None => Err(Refusal::Unresolved),
    }
}

// Restores whole by a method.
pub fn restore_with<M: CryptMethod>(
    file: &File,
    method: &M,
    object: Object,
    bytes: &[u8],
    out: &mut [u8],
) -> Result<Output, Refusal>
    ensures { Restores (viewed file.now) (handed (M.CryptMethod.scheme method.now)) object bytes.now out.old result out.new }
{
    Keyed::new(file, method, object).restore(Mark::Restored, bytes, out)
}

// Restores whole by the file's tag for the target. Under an unresolved one the bytes are passed on.
pub fn restore(
    file: &File,
    target: Target,
    object: Object,
    bytes: &[u8],
    out: &mut [u8],
) -> Result<Output, Refusal>
    ensures { Restores (viewed file.now) (tagged target) object bytes.now out.old result out.new }
{
    let tag = file.tag(target);
    Keyed::new(file, &method_of(tag), object).restore(mark_of(tag), bytes, out)
}

// Starts a run by a method.
pub fn start_with<M: CryptMethod>(
    file: &File,
    method: &M,
    object: Object,
) -> Result<Run<M::State>, Refusal>
    ensures { Begins M.State.Running.means (viewed file.now) (handed (M.CryptMethod.scheme method.now)) object result }
{
    Keyed::new(file, method, object).start(Mark::Restored)
}

// Starts a run by the file's tag for the target. Under an unresolved one it passes the bytes on.
pub fn start(file: &File, target: Target, object: Object) -> Result<Run<DecryptorState>, Refusal>
    ensures { Begins tag_means (viewed file.now) (tagged target) object result }
{
    let tag = file.tag(target);
    Keyed::new(file, &method_of(tag), object).start(mark_of(tag))
}
