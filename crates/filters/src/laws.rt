// What the definitions of this crate come to.

ghost use Rattle.filters.specs.Laws.{FilterLaws};

// The table's rule, which entry of a name counts, and what a smaller series finds.
pub fn laws()
    ensures { FilterLaws }
{}
