// A paper that is set up, opened, and whose bytes are protected and restored.
ghost use Rattle.opening.specs.File.{viewed};
ghost use Rattle.promises.specs.Promises.{SameFile};
ghost use Rattle.std.specs.Prelude.{Result};
ghost use Rattle.opening.specs.declared.refusal.Refusal.{Refusal};
ghost use Rattle.usage.specs.declared.round_trip.Pair.{Pair};
ghost use Rattle.usage.specs.RoundTrip.{OpenedAgain, Returned, Reopened, Carried, CarriedFrom};

use filters::series::Series;
use filters::table::{FilterEntry, FilterTable, Span};
use methods::method::CryptMethod;
use opening::fields::Fields;
use opening::file::File;
use opening::open::open;
use opening::refusal::Refusal;
use opening::set_up::set_up;
use promises::promises;
use reader::object::{Object, protect_with, restore_with};
use reader::output::Output;

// What a writer may choose of a paper.
#[derive(Clone, Copy)]
pub struct Settings {
    pub v: u8,
    pub r: u8,
    pub length: Option<u16>,
    pub p: i64,
    pub encrypt_metadata: Option<bool>,
    pub o: [u8; 32],
    pub id: [u8; 16],
}

// What a round trip protects.
#[derive(Clone, Copy)]
pub struct Item<'a> {
    pub object: Object,
    pub vector: &'a [u8; 16],
    pub data: &'a [u8],
}

// The file as it was set up, and as it was opened.
#[derive(Clone, Copy)]
pub struct Pair {
    pub made: File,
    pub file: File,
}

// Sets a paper up and opens it with its U. Its strings and streams have the filter `StdCF`, whose method is AESV2.
// Stays with a match like the next function's: each shows of its own call that no refusal but for space is left.
fn set_up_and_open<S: Series, M: CryptMethod>(
    series: &S,
    settings: Settings,
    password: &[u8],
    work: &mut [u8],
) -> Result<Pair, Refusal>
    ensures again { OpenedAgain M.CryptMethod.scheme result }
    ensures told { Reopened (S.Series.meaning series.now) settings password.now work.old result work.new }
{
    let entries = [FilterEntry {
        name: Span { offset: 0, len: 5 },
        method: Span { offset: 5, len: 5 },
    }];
    let o = settings.o;
    let id = settings.id;
    let mut fields = Fields {
        filter: Some(b"Standard"),
        v: Some(settings.v),
        r: Some(settings.r),
        length: settings.length,
        stm_f: Some(b"StdCF"),
        str_f: Some(b"StdCF"),
        o: Some(&o),
        u: None,
        p: Some(settings.p),
        encrypt_metadata: settings.encrypt_metadata,
        id: &id,
        table: FilterTable {
            block: b"StdCFAESV2",
            entries: &entries,
        },
    };
    let mut u = [0u8; 32];
    let made = set_up(series, &fields, password, work, &mut u)?;
    fields.u = Some(&u[0..32]);
    promises::<S, S, M>();
    match open(series, &fields, password, work) {
        Ok(file) => Ok(Pair { made, file }),
        Err(refusal) => match refusal {
            Refusal::WorkSpace | Refusal::USpace | Refusal::NoSpace => Err(refusal),
            _ => unreachable(),
        },
    }
}

// Protects bytes in the file that was set up, and restores them from the one that was opened. Once they are protected,
// no refusal but for space is left.
// Stays with the item's parts apart: of a slice inside a struct a proof does not learn that its elements are bytes.
fn protect_and_restore<M: CryptMethod>(
    pair: Pair,
    method: &M,
    object: Object,
    vector: &[u8; 16],
    data: &[u8],
    stored: &mut [u8],
    out: &mut [u8],
) -> Result<Output, Refusal>
    requires { SameFile M.CryptMethod.scheme (viewed pair.made) (viewed pair.file) }
    ensures returned { Returned «data».now out.old result out.new }
    ensures told { Carried pair (M.CryptMethod.scheme method.now) object vector.now «data».now stored.old stored.new out.old result out.new }
{
    let n = protect_with(&pair.made, method, object, vector, data, stored)?;
    match restore_with(&pair.file, method, object, &stored[0..n], out) {
        Ok(output) => Ok(output),
        Err(refusal) => match refusal {
            Refusal::WorkSpace | Refusal::USpace | Refusal::NoSpace => Err(refusal),
            _ => unreachable(),
        },
    }
}

// Sets a paper up, protects bytes in it by a method, opens it and restores them.
// Stays with password and buffers apart: a struct of them would be made for this one call.
pub fn round_trip<S: Series, M: CryptMethod>(
    series: &S,
    settings: Settings,
    password: &[u8],
    work: &mut [u8],
    method: &M,
    item: Item,
    stored: &mut [u8],
    out: &mut [u8],
) -> Result<Output, Refusal>
    ensures returned { Returned item.entry.«data».now out.old result out.new }
    ensures told { (pair : Result Pair Refusal) × Reopened (S.Series.meaning series.now) settings password.now work.old pair work.new × CarriedFrom pair (M.CryptMethod.scheme method.now) item.entry.object item.entry.vector.now item.entry.«data».now stored.old stored.new out.old result out.new }
{
    let pair = set_up_and_open::<S, M>(series, settings, password, work)?;
    protect_and_restore(
        pair,
        method,
        item.object,
        item.vector,
        item.data,
        stored,
        out,
    )
}
