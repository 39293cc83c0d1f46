// Two runs in turns, one by a tag and one by a method.
ghost use Rattle.opening.specs.File.{viewed};
ghost use Rattle.reader.specs.Run.{standing};
ghost use Rattle.reader.specs.Tag.{tag_means};
ghost use Rattle.usage.specs.Turns.{calls, Turned, Restoring, Ran, InTurns};

use filters::series::{Series1, Series2};
use methods::method::CryptMethod;
use methods::running::Running;
use opening::file::{File, Target};
use opening::refusal::Refusal;
use promises::promises;
use reader::object::{Object, start, start_with};
use reader::output::Output;
use reader::run::Run;
use tagged::tag::DecryptorState;

// What the calls answered.
#[derive(Clone, Copy)]
pub struct Turns {
    pub first_fed: Result<usize, Refusal>,
    pub second_fed: Result<usize, Refusal>,
    pub first_closed: Result<Output, Refusal>,
    pub second_closed: Result<Output, Refusal>,
}

// Feeds the first, feeds the second, closes the first and then the second.
// Stays two pieces and four buffers apart: of a slice inside a struct a proof does not learn that its elements are bytes.
fn take_turns<M: CryptMethod>(
    first: &mut Run<DecryptorState>,
    second: &mut Run<M::State>,
    p: &[u8],
    q: &[u8],
    w: &mut [u8],
    x: &mut [u8],
    y: &mut [u8],
    z: &mut [u8],
) -> Turns
    ensures first { Ran (standing tag_means first.old) p.now w.old result.first_fed w.new y.old result.first_closed y.new }
    ensures second { Ran (standing M.State.Running.means second.old) q.now x.old result.second_fed x.new z.old result.second_closed z.new }
    ensures turned { Turned M.CryptMethod.scheme (standing tag_means first.old) (standing M.State.Running.means second.old) (calls result p.now q.now w.old w.new x.old x.new y.old y.new z.old z.new) }
{
    let first_fed = first.feed(p, w);
    let second_fed = second.feed(q, x);
    let first_closed = first.close(y);
    let second_closed = second.close(z);
    promises::<Series1, Series2, M>();
    Turns {
        first_fed,
        second_fed,
        first_closed,
        second_closed,
    }
}

// Starts a run by the file's tag and one by a method, feeds and closes them in turns.
pub fn in_turns<M: CryptMethod>(
    file: &File,
    target: Target,
    method: &M,
    object: Object,
    p: &[u8],
    q: &[u8],
    w: &mut [u8],
    x: &mut [u8],
    y: &mut [u8],
    z: &mut [u8],
) -> Result<Turns, Refusal>
    ensures told { InTurns (viewed file.now) target (M.CryptMethod.scheme method.now) object p.now q.now w.old x.old y.old z.old result w.new x.new y.new z.new }
    ensures restoring { Restoring (viewed file.now) target (M.CryptMethod.scheme method.now) object result (λ t. calls t p.now q.now w.old w.new x.old x.new y.old y.new z.old z.new) }
{
    let mut first = start(file, target, object)?;
    let mut second = start_with(file, method, object)?;
    Ok(take_turns::<M>(&mut first, &mut second, p, q, w, x, y, z))
}
