// The text of a job and of cases, taken apart.
ghost use Rattle.std.specs.Prelude.{◌≡◌, ◌≤◌, ◌++◌, IfOk, IfSome, codes, vec_len};
ghost use Rattle.std.specs.Option.{option_copied};
ghost use Rattle.lines.specs.Cases.{CaseParts};

use crate::text::parts;
use byte_strings::same;
use std::alloc::{AllocError, Global};

// The lines of a text, of which there is at least one.
pub fn text_lines<'a>(heap: Global, text: &'a [u8]) -> Result<Vec<&'a [u8]>, AllocError>
    ensures { IfOk result (λ v. 1 ≤ vec_len v) }
{
    parts(heap, text, b'\n')
}

// What stands before the first ` => ` of a line, and behind it.
fn parted(line: &[u8]) -> Option<(&[u8], &[u8])>
    ensures { IfSome result (λ p. line.now ≡ p.0.now ++ (codes " => " ++ p.1.now)) }
{
    let i = line.windows(4).position(|w| same(w, b" => "))?;
    Some((&line[..i], &line[i + 4..]))
}

// The call of a case, and its expected answer; the whole line, and none, where it has none.
pub fn case_parts(line: &[u8]) -> (&[u8], Option<&[u8]>)
    ensures { CaseParts line.now result.0.now (option_copied result.1) }
{
    match parted(line) {
        Some((call, answer)) => (call, Some(answer)),
        None => (line, None),
    }
}
