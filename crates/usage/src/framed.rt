// Round trips by a method that is not shipped.
ghost use Rattle.std.specs.Prelude.{Result};
ghost use Rattle.filters.specs.Series.{first_tag};
ghost use Rattle.toy.specs.Framed.{framed_scheme};
ghost use Rattle.opening.specs.declared.refusal.Refusal.{Refusal};
ghost use Rattle.usage.specs.declared.round_trip.Pair.{Pair};
ghost use Rattle.usage.specs.RoundTrip.{Returned, Reopened, CarriedFrom};

use crate::round_trip::{Item, Settings, round_trip};
use filters::series::Series1;
use opening::refusal::Refusal;
use reader::output::Output;
use toy::framed::Framed;

// A round trip by framing.
// Stays beside the shipped one: each fixes the types of the generic one, to show that its bounds can be met.
pub fn round_trip_framed(
    settings: Settings,
    password: &[u8],
    work: &mut [u8],
    item: Item,
    stored: &mut [u8],
    out: &mut [u8],
) -> Result<Output, Refusal>
    ensures told { (pair : Result Pair Refusal) × Reopened first_tag settings password.now work.old pair work.new × CarriedFrom pair framed_scheme item.entry.object item.entry.vector.now item.entry.«data».now stored.old stored.new out.old result out.new }
    ensures returned { Returned item.entry.«data».now out.old result out.new }
{
    round_trip(
        &Series1, settings, password, work, &Framed, item, stored, out,
    )
}
