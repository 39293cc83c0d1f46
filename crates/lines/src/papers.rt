// The calls on a paper's fields: opening, setting up and looking a filter up.
use crate::buffer::{BUFFER_FILL, WORK_FILL, cleared, handed_out};
use crate::call::Call;
use crate::fault::{CallError, Fault, LineError, Stage};
use crate::key::Key;
use crate::reply::Reply;
use crate::series::Shipped;
use filters::lookup::{Lookup, look_up};
use filters::table::{FilterEntry, FilterTable};
use opening::fields::Fields;
use opening::file::File;
use opening::open::open;
use opening::set_up::set_up;

// The series that a line asks for, the second where it does not say.
fn series(call: &Call) -> Result<Shipped, Fault> {
    Ok(call.value(Key::Series)?.unwrap_or(Shipped::Second))
}

// The entries of the filter table.
fn entries(call: &Call) -> Result<Vec<FilterEntry>, Fault> {
    match call.text(Key::Cfe) {
        None | Some([]) => Ok(Vec::new(call.heap)),
        Some(_) => call
            .needed_parts(Key::Cfe, b',')?
            .iter()
            .map(|part| call.read(Key::Cfe, part))
            .try_collect(call.heap),
    }
}

// What a paper's fields are read from.
#[derive(Drop)]
struct Paper {
    v: Option<u8>,
    r: Option<u8>,
    length: Option<u16>,
    p: Option<i64>,
    encrypt_metadata: Option<bool>,
    filter: Option<Vec<u8>>,
    stm_f: Option<Vec<u8>>,
    str_f: Option<Vec<u8>>,
    o: Option<Vec<u8>>,
    u: Option<Vec<u8>>,
    id: Vec<u8>,
    block: Vec<u8>,
    entries: Vec<FilterEntry>,
}

impl Paper {
    // The fields that a line gives.
    fn read(call: &Call) -> Result<Paper, Fault> {
        Ok(Paper {
            v: call.value(Key::V)?,
            r: call.value(Key::R)?,
            length: call.value(Key::Length)?,
            p: call.value(Key::P)?,
            encrypt_metadata: call.value(Key::Em)?,
            filter: call.value(Key::Filter)?,
            stm_f: call.value(Key::StmF)?,
            str_f: call.value(Key::StrF)?,
            o: call.value(Key::O)?,
            u: call.value(Key::U)?,
            id: call.bytes_or_empty(Key::Id)?,
            block: call.bytes_or_empty(Key::Cfb)?,
            entries: entries(call)?,
        })
    }

    fn table(&self) -> FilterTable<'_> {
        FilterTable {
            block: self.block.as_slice(),
            entries: self.entries.as_slice(),
        }
    }

    fn fields(&self) -> Fields<'_> {
        Fields {
            filter: self.filter.as_deref(),
            v: self.v,
            r: self.r,
            length: self.length,
            stm_f: self.stm_f.as_deref(),
            str_f: self.str_f.as_deref(),
            o: self.o.as_deref(),
            u: self.u.as_deref(),
            p: self.p,
            encrypt_metadata: self.encrypt_metadata,
            id: self.id.as_slice(),
            table: self.table(),
        }
    }
}

// Opens the paper of a line, of which that is the given stage.
// Stays with four readings that setting up has, too: what is read is lent to another call there, beside a buffer for U.
pub(crate) fn open_paper(call: &Call, stage: Stage) -> Result<File, LineError> {
    let series = series(call)?;
    let paper = Paper::read(call)?;
    let password = call.bytes_or_empty(Key::Pw)?;
    let mut work = call.area(Key::Work, WORK_FILL)?;
    let answer = open(
        &series,
        &paper.fields(),
        password.as_slice(),
        work.as_mut_slice(),
    );
    cleared(work.as_slice())
        .and(answer.map_err(CallError::Refused))
        .map_err(|error| LineError::Failed(stage, error))
}

// The line `open`.
pub(crate) fn opened(call: &Call) -> Result<Reply, LineError> {
    Ok(Reply::Opened(open_paper(call, Stage::Itself)?))
}

// The line `setup`.
pub(crate) fn made(call: &Call) -> Result<Reply, LineError> {
    let series = series(call)?;
    let paper = Paper::read(call)?;
    let password = call.bytes_or_empty(Key::Pw)?;
    let mut work = call.area(Key::Work, WORK_FILL)?;
    let mut u = call.area(Key::Ubuf, BUFFER_FILL)?;
    let answer = set_up(
        &series,
        &paper.fields(),
        password.as_slice(),
        work.as_mut_slice(),
        u.as_mut_slice(),
    );
    cleared(work.as_slice())?;
    let (file, u) = handed_out(answer, u)?;
    Ok(Reply::SetUp(file, u))
}

// The line `lookup`.
pub(crate) fn looked_up(call: &Call) -> Result<Reply, LineError> {
    let series = series(call)?;
    let paper = Paper::read(call)?;
    let name: Vec<u8> = call.needed(Key::Name)?;
    let heap = call.heap;
    match look_up(&series, paper.table(), name.as_slice()) {
        Lookup::Found(tag) => Ok(Reply::Found(tag)),
        Lookup::NotListed(name) => Ok(Reply::NotListed(Vec::from_slice(heap, name)?)),
        Lookup::NoMethod(name) => Ok(Reply::NoMethod(Vec::from_slice(heap, name)?)),
        Lookup::UnknownMethod(text) => Ok(Reply::UnknownMethod(Vec::from_slice(heap, text)?)),
    }
}
