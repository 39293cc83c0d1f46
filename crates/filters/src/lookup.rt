// Looking a crypt filter up.

ghost use Rattle.std.specs.Prelude.{◌≡◌};
ghost use Rattle.filters.specs.Table.{table_of};
ghost use Rattle.filters.specs.Lookup.{looked_up, read, tag_of};

use crate::series::Series;
use crate::table::FilterTable;
use crate::tag::Tag;

// What became of a filter's name. The bytes are the caller's own.
// Stays an enum, and no Result: none of the cases is a refusal, and three of them borrow the text that they speak of.
#[derive(Clone, Copy)]
pub enum Lookup<'a> {
    // the tag of its method
    Found(Tag),
    // no entry bears this name
    NotListed(&'a [u8]),
    // the entry of this name has no method text
    NoMethod(&'a [u8]),
    // the series does not know this method text
    UnknownMethod(&'a [u8]),
}

impl Lookup<'_> {
    // The tag that the file takes from it; none where the filter is unresolved.
    pub fn tag(&self) -> Option<Tag>
        ensures { result ≡ tag_of (read self.now) }
    {
        match self {
            Lookup::Found(tag) => Some(*tag),
            Lookup::NotListed(_) | Lookup::NoMethod(_) | Lookup::UnknownMethod(_) => None,
        }
    }
}

// What the table and the series say of the filter of this name.
pub fn look_up<'a, S: Series>(series: &S, table: FilterTable<'a>, name: &'a [u8]) -> Lookup<'a>
    ensures { read result ≡ looked_up (S.meaning series.now) (table_of table.entry) name.now }
{
    let Some(e) = table.last_named(name) else {
        return Lookup::NotListed(name);
    };
    if e.method.len == 0 {
        return Lookup::NoMethod(name);
    }
    let text = table.part(e.method);
    match series.tag(text) {
        Some(tag) => Lookup::Found(tag),
        None => Lookup::UnknownMethod(text),
    }
}
