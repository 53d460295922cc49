//! The right answer to each question of a vector line, from the formats, the rules, the rounding unit and the generator.
//!
//! `answer` is proved to answer what the meanings of these say: an operation's rounded exact result, a split, the numbers next to a code,
//! the ends of a format, what a rule says, the unit's quotient and the generator's first words, or the number of the refusal.
#![tactic(auto)]

mod answering;
mod comparing;
mod operated;
mod refused;
mod unit_and_generator;

pub use answering::answer;
pub use comparing::{Outcome, compare};

/// Examples: each kind of line, answers as they are written, the largest numbers, and lines that cannot be read.
#[cfg(test)]
mod tests {
    use super::*;
    use lines::{Answer, Malformed, parse_line};
    use operations::Rounded;
    use std::test::Fail;

    #[test]
    fn lines_are_compared(rt: HostRuntime) {
        for (line, outcome) in [
            ("", Outcome::PassedOver),
            (" \t\r ", Outcome::PassedOver),
            ("# lcg 0 ->", Outcome::PassedOver),
            (
                "s8.7 8 comparison mul 0x81 0x0081 0x01ffffff -> 0x83 0",
                Outcome::Agrees,
            ),
            ("s8.7 8 carry mul 0x81 0x81 - -> refused 8", Outcome::Agrees),
            ("\tnext  s8.7 0x7fff ->\tabsent 0x7ffe \r", Outcome::Agrees),
            ("unit nearest 8 8 -384 - -> -1", Outcome::Agrees),
            (
                "s8.7 8 carry mul 0x81 0x81 0x01ffffff -> 0x83 0",
                Outcome::Differs(Answer::Rounded(Rounded {
                    code: 0x82,
                    clamped: false,
                })),
            ),
            (
                "u33.0 0 carry mul 0x81 0x81 - -> refused 2",
                Outcome::Differs(Answer::Refused(1)),
            ),
            (
                "size 1 8 7 -> 0x7fff 0x8000",
                Outcome::Differs(Answer::Ends {
                    least: 0x8000,
                    greatest: 0x7fff,
                }),
            ),
            ("size 1 8 7", Outcome::Malformed(Malformed::Question)),
            ("size 1 8 7 ->", Outcome::Malformed(Malformed::Expectation)),
        ] {
            assert_eq!(rt; compare(line.as_bytes()), outcome);
        }
        assert_eq!(rt;
            compare(&[0xff, 0, b' ', 0xc3]),
            Outcome::Malformed(Malformed::Question)
        );
    }

    #[test]
    fn answers_stand_as_they_are_written(rt: HostRuntime) -> Result<(), Fail> {
        for (line, written) in [
            ("s8.7 8 carry add 0x1 0x2 - -> 0x3 1", "0x0003 1"),
            (
                "split s8.7 8 mul 0x00aB 0x81 -> 0xAc 0xad 255 1",
                "0x00ac 0x00ad 255 1",
            ),
            ("next s8.7 0x7fff -> absent 0x12345", "absent 0x12345"),
            ("size 1 8 7 -> 0x8000 0x7fff", "0x8000 0x7fff"),
            ("rule carry 8 1 255 -> far", "far"),
            (
                "unit down 1 1 -9223372036854775808 0x0 -> -2147483648",
                "-2147483648",
            ),
            ("size 1 8 18446744073709551615 -> refused 1", "refused 1"),
            (
                "lcg 4294967295 -> 0x3c6ef35f 0x1 0x2 0x3 0x4 0x5 0x6 0x00ffffffff",
                "0x3c6ef35f 0x00000001 0x00000002 0x00000003 0x00000004 0x00000005 0x00000006 0xffffffff",
            ),
        ] {
            let vector = parse_line(line.as_bytes())?.ok_or("passed over")?;
            assert_eq!(rt; vector.expected.to_string(rt.alloc())?.as_str(), written);
        }
        Ok(())
    }

    #[test]
    fn some_lines_cannot_be_read(rt: HostRuntime) {
        for line in [
            "->",
            " # no comment",
            "size 1 8 18446744073709551616 -> 0x0 0x1",
            "size 1 8 7 9 -> 0x0 0x1",
            "next s8 0x0 -> absent absent",
            "next S8.7 0x0 -> absent absent",
            "next s8.7 0 -> absent absent",
            "rule 8 carry 1 2 -> near",
            "unit down 1 1 9223372036854775808 - -> 0",
            "lcg 4294967296 -> 0x1 0x1 0x1 0x1 0x1 0x1 0x1 0x1",
        ] {
            let outcome = compare(line.as_bytes());
            assert_eq!(rt; outcome, Outcome::Malformed(Malformed::Question));
        }
        for line in [
            "size 1 8 7 -> 0x0",
            "size 1 8 7 -> 0x0 0x1 0x2",
            "size 1 8 7 -> 0x100000000 0x1",
            "size 1 8 7 -> refused",
            "rule carry 8 1 2 -> refused 2",
            "unit down 1 1 0 - -> 0x1",
            "lcg 0 -> 0x1 0x1 0x1 0x1 0x1 0x1 0x1",
        ] {
            let outcome = compare(line.as_bytes());
            assert_eq!(rt; outcome, Outcome::Malformed(Malformed::Expectation));
        }
    }
}
