// What opening and setting up come to.

ghost use Rattle.opening.specs.Laws.{OpeningLaws};

// Which fields and passwords are accepted, by which key and U; that what was set up opens; and what a smaller series opens.
pub fn laws()
    ensures { OpeningLaws }
{}
