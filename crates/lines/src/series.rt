// The series that a line may ask for.
ghost use Rattle.std.specs.Prelude.{◌≡◌};
ghost use Rattle.std.proofs.Common.{rules};
ghost use Rattle.lines.specs.Series.{shipped_tag};

use crate::fault::Flaw;
use crate::from_text::FromText;
use crate::text::number_of;
use filters::series::{Series, Series1, Series2};
use filters::tag::Tag;
use std::alloc::Global;

// One of the two shipped series.
#[derive(Clone, Copy)]
pub enum Shipped {
    First,
    Second,
}

impl Series for Shipped {
    ghost meaning = { shipped_tag };

    ghost named = { Prim.search rules };

    fn tag(&self, text: &[u8]) -> Option<Tag> {
        match self {
            Shipped::First => Series1.tag(text),
            Shipped::Second => Series2.tag(text),
        }
    }
}

// By its number.
impl FromText for Shipped {
    fn from_text(_heap: Global, text: &[u8]) -> Result<Shipped, Flaw> {
        match number_of::<u64>(text)? {
            0 => Err(Flaw::NotListed),
            1 => Ok(Shipped::First),
            2 => Ok(Shipped::Second),
            _ => Err(Flaw::TooLarge),
        }
    }
}
