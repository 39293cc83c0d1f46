// A method with the key that it takes.
ghost use Rattle.std.specs.Prelude.{◌≡◌};
ghost use Rattle.opening.specs.File.{viewed};
ghost use Rattle.reader.specs.Key.{key_bytes, key_for};
ghost use Rattle.reader.specs.Object.{ProtectsUnder, RestoresUnder, StartsUnder, key_under};

use crate::object::Object;
use crate::output::{Mark, Output};
use crate::run::Run;
use crate::space::{check_space, space_for};
use keys::{Key, object_key};
use methods::key_kind::KeyKind;
use methods::method::CryptMethod;
use opening::file::File;
use opening::refusal::Refusal;

// The object's own key, or the file key.
#[derive(Clone, Copy)]
enum TakenKey<'a> {
    Own(Key),
    File(&'a [u8]),
}

impl<'a> TakenKey<'a> {
    // The key that a method of this kind takes for the object, from the file key.
    fn new(kind: KeyKind, key: &'a [u8], object: Object) -> TakenKey<'a>
        ensures { key_bytes result ≡ key_for kind key.now object }
    {
        match kind {
            KeyKind::Object => TakenKey::Own(object_key(
                key,
                object.number,
                object.generation,
                false,
            )),
            KeyKind::Salted => TakenKey::Own(object_key(
                key,
                object.number,
                object.generation,
                true,
            )),
            KeyKind::File => TakenKey::File(key),
        }
    }

    fn as_bytes(&self) -> &[u8]
        ensures { result.now ≡ key_bytes self.now }
    {
        match self {
            TakenKey::Own(key) => key.as_bytes(),
            TakenKey::File(key) => key,
        }
    }
}

// A method, and the key that it takes for an object of a file.
#[derive(Drop)]
pub(crate) struct Keyed<'a, M> {
    method: &'a M,
    key: TakenKey<'a>,
}

impl<'a, M: CryptMethod> Keyed<'a, M> {
    pub(crate) fn new(file: &'a File, method: &'a M, object: Object) -> Keyed<'a, M>
        ensures method { result.method.now ≡ method.now }
        ensures key { key_bytes result.key ≡ key_under (M.CryptMethod.scheme method.now) (viewed file.now) object }
    {
        let key = TakenKey::new(method.takes(), file.key(), object);
        Keyed { method, key }
    }

    // Protects under the key.
    pub(crate) fn protect(
        &self,
        vector: &[u8; 16],
        data: &[u8],
        out: &mut [u8],
    ) -> Result<usize, Refusal>
        ensures { ProtectsUnder (M.CryptMethod.scheme self.now.method.now) (key_bytes self.now.key) vector.now «data».now out.old result out.new }
    {
        let key = self.key.as_bytes();
        if !self.method.admits(key.len()) {
            return Err(Refusal::KeyLength);
        }
        check_space(self.method.stored_len(data.len()), out.len())?;
        Ok(self.method.protect(key, vector, data, out)?)
    }

    // Restores whole under the key.
    pub(crate) fn restore(
        &self,
        mark: Mark,
        bytes: &[u8],
        out: &mut [u8],
    ) -> Result<Output, Refusal>
        ensures { RestoresUnder (M.CryptMethod.scheme self.now.method.now) (key_bytes self.now.key) mark bytes.now out.old result out.new }
    {
        let key = self.key.as_bytes();
        let state = self.method.start(key)?;
        check_space(space_for(&state, bytes.len()), out.len())?;
        let count = self.method.restore(key, bytes, out)?;
        Ok(Output { mark, count })
    }

    // Starts a run under the key.
    pub(crate) fn start(&self, mark: Mark) -> Result<Run<M::State>, Refusal>
        ensures { StartsUnder M.State.Running.means (M.CryptMethod.scheme self.now.method.now) (key_bytes self.now.key) mark result }
    {
        let state = self.method.start(self.key.as_bytes())?;
        Ok(Run {
            state: Some(state),
            mark,
        })
    }
}
