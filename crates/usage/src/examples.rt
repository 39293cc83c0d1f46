// Worked examples of the definitions.
ghost use Rattle.std.specs.Prelude.{◌≡◌, length};
ghost use Rattle.usage.specs.Examples.{examples, Hold};

fn examples_hold()
    ensures { Hold examples }
{}

// How many worked examples there are. All of them hold.
pub fn worked_examples() -> usize
    ensures count { result ≡ length examples }
    ensures hold { Hold examples }
{
    examples_hold();
    8
}
