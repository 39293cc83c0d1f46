// A paper opened in both series.
ghost use Rattle.usage.specs.BothSeries.{OpensMore, OpenedTwice};

use filters::series::{Series1, Series2};
use methods::method::CryptMethod;
use opening::fields::Fields;
use opening::file::File;
use opening::open::open;
use opening::refusal::Refusal;
use promises::promises;

// What opening answered in each series.
#[derive(Clone, Copy)]
pub struct Both {
    pub first: Result<File, Refusal>,
    pub second: Result<File, Refusal>,
}

// The second series knows every text that the first knows.
fn second_knows_more<M: CryptMethod>()
    ensures { OpensMore M.CryptMethod.scheme }
{
    promises::<Series1, Series2, M>();
}

// Opens in one series after the other.
fn open_in_turn<M: CryptMethod>(fields: &Fields, password: &[u8], work: &mut [u8]) -> Both
    ensures { OpenedTwice M.CryptMethod.scheme fields.now password.now work.old result work.new }
{
    let first = open(&Series1, fields, password, work);
    let second = open(&Series2, fields, password, work);
    second_knows_more::<M>();
    Both { first, second }
}

// Opens in the first series and in the second.
// Stays above `open_in_turn`: a public function has no proof written by hand.
pub fn open_in_both<M: CryptMethod>(fields: &Fields, password: &[u8], work: &mut [u8]) -> Both
    ensures { OpenedTwice M.CryptMethod.scheme fields.now password.now work.old result work.new }
{
    open_in_turn::<M>(fields, password, work)
}
