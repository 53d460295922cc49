//! The answers that a line expects.
use draws::Neighbour;
use formats::Split;
use operations::Rounded;
use std::fmt;

/// The answer to one question: a result and whether it was clamped, a split, the codes next to a code, the ends of a
/// format, what a rule said, the quotient of the unit, words of the generator, or the number of a refusal.
#[derive(Clone, Copy, PartialEq, Debug)]
pub enum Answer {
    Rounded(Rounded),
    Split(Split),
    Next {
        above: Option<u32>,
        below: Option<u32>,
    },
    Ends {
        least: u32,
        greatest: u32,
    },
    Said(Neighbour),
    /// Any signed number may stand in the line.
    Quotient(i64),
    Words([u32; 8]),
    /// The number as it stands in the line, where any may stand.
    Refused(u64),
}

/// A code as it stands in a line, and `absent` for one that is not there.
#[derive(Clone, Copy)]
struct Code(Option<u32>);

impl fmt::Display for Code {
    fn fmt<W: fmt::Write>(&self, f: &mut fmt::Formatter<W>) -> fmt::Result {
        match self.0 {
            Some(code) => write!(f, "{code:#06x}"),
            None => f.write_str("absent"),
        }
    }
}

/// As it stands in a line after `->`.
impl fmt::Display for Answer {
    fn fmt<W: fmt::Write>(&self, f: &mut fmt::Formatter<W>) -> fmt::Result {
        match *self {
            Answer::Rounded(rounded) => {
                let code = rounded.code;
                let clamped = u8::from(rounded.clamped);
                write!(f, "{code:#06x} {clamped}")
            }
            Answer::Split(split) => {
                let (near, far, count) = split.parts;
                let clamped = u8::from(split.clamped);
                write!(f, "{near:#06x} {far:#06x} {count} {clamped}")
            }
            Answer::Next { above, below } => {
                let above = Code(above);
                let below = Code(below);
                write!(f, "{above} {below}")
            }
            Answer::Ends { least, greatest } => write!(f, "{least:#06x} {greatest:#06x}"),
            Answer::Said(neighbour) => write!(f, "{neighbour}"),
            Answer::Quotient(quotient) => write!(f, "{quotient}"),
            Answer::Words(words) => {
                // the first has no blank before it
                if let [first, others @ ..] = words.as_slice() {
                    write!(f, "{first:#010x}")?;
                    for word in others {
                        write!(f, " {word:#010x}")?;
                    }
                }
                Ok(())
            }
            Answer::Refused(number) => write!(f, "refused {number}"),
        }
    }
}
