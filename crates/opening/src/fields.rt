// The fields of an encryption dictionary.

ghost use Rattle.std.specs.Prelude.{◌≡◌};
ghost use Rattle.opening.specs.Fields.{or_yes};

use filters::table::FilterTable;

// What an encryption dictionary holds. An option is none where the field is absent.
#[derive(Clone, Copy)]
pub struct Fields<'a> {
    pub filter: Option<&'a [u8]>,
    pub v: Option<u8>,
    pub r: Option<u8>,
    // the file key's length in bits
    pub length: Option<u16>,
    // the names of the crypt filters of streams and of strings
    pub stm_f: Option<&'a [u8]>,
    pub str_f: Option<&'a [u8]>,
    pub o: Option<&'a [u8]>,
    pub u: Option<&'a [u8]>,
    pub p: Option<i64>,
    // absent means yes
    pub encrypt_metadata: Option<bool>,
    // the file identifier, which may be empty
    pub id: &'a [u8],
    // CF; empty where it is absent
    pub table: FilterTable<'a>,
}

impl Fields<'_> {
    // Whether metadata is encrypted.
    pub fn encrypts_metadata(&self) -> bool
        ensures { result ≡ or_yes self.now.encrypt_metadata }
    {
        self.encrypt_metadata.unwrap_or(true)
    }
}
