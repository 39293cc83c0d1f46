// The filter table, CF: which crypt filters a file lists, and the method text of each.

ghost use Rattle.std.specs.Prelude.{◌≡◌};
ghost use Rattle.filters.specs.Table.{end_of, in_order, first_bad, bad_entry, part_of, last_named, table_of};

use byte_strings::same;

// A part of the table's block, by offset and length.
// Stays two numbers, and no slice: the table's rule is about where a pair lies, also one that lies past the block.
#[derive(Clone, Copy)]
pub struct Span {
    pub offset: u32,
    pub len: u32,
}

// An entry: where the filter's name stands, and its method text, of length 0 where it has none.
// Stays a pair, and no option: the table's rule asks of an empty method text, too, where it lies.
#[derive(Clone, Copy)]
pub struct FilterEntry {
    pub name: Span,
    pub method: Span,
}

// A block of bytes, and the entries whose names and method texts are parts of it.
#[derive(Clone, Copy)]
pub struct FilterTable<'a> {
    pub block: &'a [u8],
    pub entries: &'a [FilterEntry],
}

impl Span {
    // Where the part ends.
    fn end(&self) -> u64
        ensures { result ≡ end_of self.now }
    {
        u64::from(self.offset) + u64::from(self.len)
    }
}

impl FilterEntry {
    // Whether the name starts no earlier than `before`, the method text no earlier than the name's end, and both end by `size`.
    fn in_order(&self, size: u64, before: u64) -> bool
        ensures { result ≡ in_order size before self.now }
    {
        let name_end = self.name.end();
        before <= u64::from(self.name.offset)
            && name_end <= size
            && name_end <= u64::from(self.method.offset)
            && self.method.end() <= size
    }
}

// The place of the first entry that breaks the table's rule in a block of that size.
// Stays a loop over the entries with their index: the refusal names the entry, and each is held against the one before.
fn first_bad(size: u64, entries: &[FilterEntry]) -> Option<usize>
    ensures { result ≡ first_bad size 0 0 entries.now }
{
    let mut end = 0;
    for (i, e) in entries.iter().enumerate() {
        if !e.in_order(size, end) {
            return Some(i);
        }
        end = e.method.end();
    }
    None
}

impl<'a> FilterTable<'a> {
    // The place of the first entry that breaks the table's rule: in list order each pair starts no earlier than the end
    // of the pair before, and ends by the block's end.
    pub fn bad_entry(self) -> Option<usize>
        ensures { result ≡ bad_entry (table_of self.entry) }
    {
        first_bad(self.block.len() as u64, self.entries)
    }

    // The part of the block, cut at the block's end.
    pub(crate) fn part(&self, span: Span) -> &'a [u8]
        ensures { result.now ≡ part_of self.now.block.now span }
    {
        let block = self.block;
        let from = (span.offset as usize).min(block.len());
        let to = (span.end() as usize).min(block.len());
        &block[from..to]
    }

    // The last entry that bears the name.
    pub(crate) fn last_named(&self, name: &[u8]) -> Option<FilterEntry>
        ensures { result ≡ last_named self.now.block.now name.now self.now.entries.now }
    {
        self.entries
            .iter()
            .rev()
            .find(|e| same(self.part(e.name), name))
            .copied()
    }
}
