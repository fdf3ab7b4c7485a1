use std::fmt;
use std::fmt::{Display, Formatter, Write};

/// Why a line is bad. Where several reasons apply to it, the one that stands first here is told.
#[derive(Clone, Copy, Debug, PartialEq, Eq)]
pub enum Reason {
    /// A byte that no line may hold.
    Text,
    /// The first line that is not skipped is no header, or there is none.
    Header,
    /// The first word begins no line, or no operation follows the thread.
    Word,
    /// The line has too few words or too many.
    Count,
    /// The script has no such thread.
    Thread,
    /// No root word is named so.
    Slot,
    /// No earlier line declares the cache.
    Unknown,
    /// A number is not made of digits alone.
    Number,
    /// A number passes its limits.
    Range,
    /// A cache can't be declared under the name.
    Name,
    /// The line stands at a wrong place.
    Order,
    /// The line makes one cache, phase or call too many, or the file is too long.
    Limit,
}

impl Reason {
    ghost use Rattle.std.specs.Prelude.{◌≡◌};
    ghost use Rattle.script.specs.ReasonWords.{reason_word};

    /// The word of the reason, in lower case.
    pub fn word(self) -> &'static [u8]
        ensures { result.now ≡ reason_word self }
    {
        self.as_str().as_bytes()
    }

    fn as_str(self) -> &'static str
        ensures { result.now ≡ reason_word self }
    {
        match self {
            Reason::Text => "text",
            Reason::Header => "header",
            Reason::Word => "word",
            Reason::Count => "count",
            Reason::Thread => "thread",
            Reason::Slot => "slot",
            Reason::Unknown => "unknown",
            Reason::Number => "number",
            Reason::Range => "range",
            Reason::Name => "name",
            Reason::Order => "order",
            Reason::Limit => "limit",
        }
    }
}

impl Display for Reason {
    ghost use Rattle.std.specs.Prelude.{Some};
    ghost use Rattle.script.specs.ReasonWords.{reason_word};

    ghost output = { λ reason. Some (reason_word reason) };

    fn fmt<W: Write>(&self, f: &mut Formatter<W>) -> fmt::Result {
        f.write_str(self.as_str())
    }
}
