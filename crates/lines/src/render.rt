// Answers as text: a line for programs, and words for people.
use crate::fault::{CallError, LineError, Stage};
use crate::reply::{Reply, Step};
use crate::text::first_word;
use filters::tag::Tag;
use opening::file::{File, Target};
use opening::refusal::Refusal;
use std::fmt;

// Bytes as lower-case hexadecimal.
#[derive(Clone, Copy)]
struct Hex<'a>(&'a [u8]);

impl fmt::Display for Hex<'_> {
    fn fmt<W: fmt::Write>(&self, f: &mut fmt::Formatter<W>) -> fmt::Result {
        for b in self.0 {
            write!(f, "{b:02x}")?;
        }
        Ok(())
    }
}

// Bytes for a person: text in quotes where they are printable ASCII characters and ends of lines, else hexadecimal.
#[derive(Clone, Copy)]
struct Shown<'a>(&'a [u8]);

impl fmt::Display for Shown<'_> {
    fn fmt<W: fmt::Write>(&self, f: &mut fmt::Formatter<W>) -> fmt::Result {
        if !self.0.iter().all(|b| matches!(*b, b'\n' | 0x20..=0x7e)) {
            return write!(f, "{}", Hex(self.0));
        }
        write!(f, "\"")?;
        for b in self.0 {
            match *b {
                b'\n' => write!(f, "\\n")?,
                b => write!(f, "{}", char::from(b))?,
            }
        }
        write!(f, "\"")
    }
}

// How many bytes, and then the bytes for a person.
#[derive(Clone, Copy)]
struct Counted<'a>(&'a [u8]);

impl fmt::Display for Counted<'_> {
    fn fmt<W: fmt::Write>(&self, f: &mut fmt::Formatter<W>) -> fmt::Result {
        write!(f, "{} bytes: {}", self.0.len(), Shown(self.0))
    }
}

// The tag of a filter, or that it is unresolved.
#[derive(Clone, Copy)]
struct TagOf(Option<Tag>);

impl fmt::Display for TagOf {
    fn fmt<W: fmt::Write>(&self, f: &mut fmt::Formatter<W>) -> fmt::Result {
        match self.0 {
            Some(tag) => write!(f, "{tag}"),
            None => write!(f, "unresolved"),
        }
    }
}

// A length that was told, or `none`.
#[derive(Clone, Copy)]
struct Told(Option<usize>);

impl fmt::Display for Told {
    fn fmt<W: fmt::Write>(&self, f: &mut fmt::Formatter<W>) -> fmt::Result {
        match self.0 {
            Some(n) => write!(f, "{n}"),
            None => write!(f, "none"),
        }
    }
}

// The value of a refusal that has one, with the texts before it and behind the word for it.
#[derive(Clone, Copy)]
struct ValueOf(&'static str, Refusal, &'static str);

impl fmt::Display for ValueOf {
    fn fmt<W: fmt::Write>(&self, f: &mut fmt::Formatter<W>) -> fmt::Result {
        let ValueOf(before, refusal, behind) = *self;
        match refusal {
            Refusal::Missing(field) => write!(f, "{before}field{behind}{field}"),
            Refusal::BadTable(entry) => write!(f, "{before}entry{behind}{entry}"),
            _ => Ok(()),
        }
    }
}

// An answer, or a part of one, as a line.
#[derive_where(Clone, Copy)]
pub struct Line<'a, T>(pub &'a T);

impl fmt::Display for Line<'_, File> {
    fn fmt<W: fmt::Write>(&self, f: &mut fmt::Formatter<W>) -> fmt::Result {
        let strings = TagOf(self.0.tag(Target::String));
        let streams = TagOf(self.0.tag(Target::Stream));
        write!(
            f,
            "ok key={} str={strings} stm={streams}",
            Hex(self.0.key())
        )
    }
}

impl fmt::Display for Line<'_, Step> {
    fn fmt<W: fmt::Write>(&self, f: &mut fmt::Formatter<W>) -> fmt::Result {
        match self.0 {
            Step::Fed(out) => write!(f, "F:{}:{}", out.len(), Hex(out.as_slice())),
            Step::Closed(mark, out) => write!(f, "C:{mark}:{}:{}", out.len(), Hex(out.as_slice())),
            Step::Asked(closing, feeding, after) => {
                write!(
                    f,
                    "Q:{}:{}:{}",
                    Told(*closing),
                    Told(*feeding),
                    Told(*after)
                )
            }
            Step::Failed(CallError::Refused(refusal)) => write!(f, "E:{}", refusal.number()),
            Step::Failed(CallError::WrongBuffer) => write!(f, "wrong buffer"),
        }
    }
}

impl fmt::Display for Line<'_, LineError> {
    fn fmt<W: fmt::Write>(&self, f: &mut fmt::Formatter<W>) -> fmt::Result {
        match self.0 {
            LineError::Malformed(fault) => write!(f, "malformed: {fault}"),
            LineError::Failed(stage, CallError::Refused(refusal)) => {
                let at = match stage {
                    Stage::Itself => "",
                    Stage::Opening => " at=open",
                };
                let value = ValueOf(" ", *refusal, "=");
                let layer = refusal.layer();
                write!(f, "err={} layer={layer}{value}{at}", refusal.number())
            }
            LineError::Failed(_, CallError::WrongBuffer) => write!(f, "wrong buffer"),
        }
    }
}

impl fmt::Display for Line<'_, Reply> {
    fn fmt<W: fmt::Write>(&self, f: &mut fmt::Formatter<W>) -> fmt::Result {
        match self.0 {
            Reply::Quiet | Reply::Noted => Ok(()),
            Reply::Out(bytes) => write!(f, "ok out={}", Hex(bytes.as_slice())),
            Reply::NoKey => write!(f, "none"),
            Reply::Opened(file) => write!(f, "{}", Line(file)),
            Reply::SetUp(file, u) => write!(f, "{} u={}", Line(file), Hex(u.as_slice())),
            Reply::Found(tag) => write!(f, "found tag={tag}"),
            Reply::NotListed(name) => write!(f, "notlisted name={}", Hex(name.as_slice())),
            Reply::NoMethod(name) => write!(f, "nomethod name={}", Hex(name.as_slice())),
            Reply::UnknownMethod(text) => write!(f, "unknown text={}", Hex(text.as_slice())),
            Reply::Restored(mark, out) => {
                write!(
                    f,
                    "ok mark={mark} count={} out={}",
                    out.len(),
                    Hex(out.as_slice())
                )
            }
            Reply::Protected(out) => {
                write!(f, "ok count={} out={}", out.len(), Hex(out.as_slice()))
            }
            Reply::Ran(steps) => {
                write!(f, "ok calls=")?;
                for (i, step) in steps.iter().enumerate() {
                    let before = if i == 0 { "" } else { ";" };
                    write!(f, "{before}{}", Line(step))?;
                }
                Ok(())
            }
            Reply::Started(run) => write!(f, "ok run={run}"),
            Reply::Stepped(step) => write!(f, "{}", Line(step)),
            Reply::Error(error) => write!(f, "{}", Line(error)),
        }
    }
}

// An answer, or a part of one, in words.
// Stays beside `Line`: the two differ in every text, and not in a constant.
#[derive_where(Clone, Copy)]
pub struct Record<'a, T>(pub &'a T);

impl fmt::Display for Record<'_, File> {
    fn fmt<W: fmt::Write>(&self, f: &mut fmt::Formatter<W>) -> fmt::Result {
        let key = self.0.key();
        let strings = TagOf(self.0.tag(Target::String));
        let streams = TagOf(self.0.tag(Target::Stream));
        write!(
            f,
            "a key of {} bytes, {}; strings {strings}, streams {streams}",
            key.len(),
            Hex(key)
        )
    }
}

impl fmt::Display for Record<'_, CallError> {
    fn fmt<W: fmt::Write>(&self, f: &mut fmt::Formatter<W>) -> fmt::Result {
        match self.0 {
            CallError::Refused(refusal) => {
                let value = ValueOf(", ", *refusal, " ");
                let layer = refusal.layer();
                write!(
                    f,
                    "refused: {} {refusal}, {layer} layer{value}",
                    refusal.number()
                )
            }
            CallError::WrongBuffer => write!(f, "left a buffer that it should not have touched"),
        }
    }
}

impl fmt::Display for Record<'_, Step> {
    fn fmt<W: fmt::Write>(&self, f: &mut fmt::Formatter<W>) -> fmt::Result {
        match self.0 {
            Step::Fed(out) => write!(f, "handed out, {}", Counted(out.as_slice())),
            Step::Closed(mark, out) => write!(f, "closed; {mark}, {}", Counted(out.as_slice())),
            Step::Asked(closing, feeding, after) => {
                let (closing, feeding, after) = (Told(*closing), Told(*feeding), Told(*after));
                write!(
                    f,
                    "closing wants {closing}; feeding would hand out {feeding}, and closing after it want {after}"
                )
            }
            Step::Failed(error) => write!(f, "{}", Record(error)),
        }
    }
}

impl fmt::Display for Record<'_, LineError> {
    fn fmt<W: fmt::Write>(&self, f: &mut fmt::Formatter<W>) -> fmt::Result {
        match self.0 {
            LineError::Malformed(fault) => write!(f, "malformed: {fault}"),
            LineError::Failed(Stage::Opening, error @ CallError::Refused(_)) => write!(
                f,
                "opening {}",
                Record(error)
            ),
            LineError::Failed(_, error) => write!(f, "{}", Record(error)),
        }
    }
}

impl fmt::Display for Record<'_, Reply> {
    fn fmt<W: fmt::Write>(&self, f: &mut fmt::Formatter<W>) -> fmt::Result {
        match self.0 {
            Reply::Quiet => Ok(()),
            Reply::Noted => write!(f, "noted for the lines behind"),
            Reply::Out(bytes) => write!(f, "gives {}", Shown(bytes.as_slice())),
            Reply::NoKey => write!(f, "does not take the key"),
            Reply::Opened(file) => write!(f, "opened: {}", Record(file)),
            Reply::SetUp(file, u) => write!(f, "set up: {}; U {}", Record(file), Hex(u.as_slice())),
            Reply::Found(tag) => write!(f, "found: {tag}"),
            Reply::NotListed(name) => write!(f, "not listed: {}", Shown(name.as_slice())),
            Reply::NoMethod(name) => write!(f, "has no method: {}", Shown(name.as_slice())),
            Reply::UnknownMethod(text) => write!(f, "unknown method: {}", Shown(text.as_slice())),
            Reply::Restored(mark, out) => write!(f, "{mark}, {}", Counted(out.as_slice())),
            Reply::Protected(out) => write!(f, "stored, {}", Counted(out.as_slice())),
            Reply::Ran(steps) => {
                write!(f, "ran through {} calls", steps.len())?;
                for (i, step) in steps.iter().enumerate() {
                    write!(f, "\n{:>18}. {}", i + 1, Record(step))?;
                }
                Ok(())
            }
            Reply::Started(run) => write!(f, "started run {run}"),
            Reply::Stepped(step) => write!(f, "{}", Record(step)),
            Reply::Error(error) => write!(f, "{}", Record(error)),
        }
    }
}

// The word that names a call, filled with spaces to ten characters.
#[derive(Clone, Copy)]
struct Word<'a>(&'a [u8]);

impl fmt::Display for Word<'_> {
    fn fmt<W: fmt::Write>(&self, f: &mut fmt::Formatter<W>) -> fmt::Result {
        for b in self.0 {
            write!(f, "{}", char::from(*b))?;
        }
        let left = 10usize.saturating_sub(self.0.len());
        write!(f, "{:left$}", "")
    }
}

// A line's number, its call, and the answer in words.
#[derive(Clone, Copy)]
pub struct Entry<'a>(pub usize, pub &'a [u8], pub &'a Reply);

impl fmt::Display for Entry<'_> {
    fn fmt<W: fmt::Write>(&self, f: &mut fmt::Formatter<W>) -> fmt::Result {
        let word = Word(first_word(self.1));
        write!(f, "{:>5}  {word}{}", self.0, Record(self.2))
    }
}
