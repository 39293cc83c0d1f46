// Round trips by the methods that are shipped.
ghost use Rattle.std.specs.Prelude.{Result};
ghost use Rattle.filters.specs.Tag.{standard_tag};
ghost use Rattle.tagged.specs.Tag.{tag_scheme};
ghost use Rattle.opening.specs.declared.refusal.Refusal.{Refusal};
ghost use Rattle.usage.specs.declared.round_trip.Pair.{Pair};
ghost use Rattle.usage.specs.RoundTrip.{Returned, Reopened, CarriedFrom};

use crate::round_trip::{Item, Settings, round_trip};
use filters::series::Series2;
use opening::refusal::Refusal;
use reader::output::Output;
use tagged::tag::DecryptorTag;

// A round trip by one of the methods that are shipped.
// Stays beside the framed one: each fixes the types of the generic one, to show that its bounds can be met.
pub fn round_trip_shipped(
    tag: DecryptorTag,
    settings: Settings,
    password: &[u8],
    work: &mut [u8],
    item: Item,
    stored: &mut [u8],
    out: &mut [u8],
) -> Result<Output, Refusal>
    ensures told { (pair : Result Pair Refusal) × Reopened standard_tag settings password.now work.old pair work.new × CarriedFrom pair (tag_scheme tag) item.entry.object item.entry.vector.now item.entry.«data».now stored.old stored.new out.old result out.new }
    ensures returned { Returned item.entry.«data».now out.old result out.new }
{
    round_trip(&Series2, settings, password, work, &tag, item, stored, out)
}
