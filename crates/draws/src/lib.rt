//! Random words, the sources they come from, and the rules that decide by them.
//!
//! A source gives 32-bit words. A taken `Word` belongs to one rounding: it can be neither copied nor let go,
//! and its one use is `decide`, which asks a rule with the draw bits k, a count and the draw of the word, and
//! answers the near or the far neighbour. A fair rule says far for exactly `count` of the 2^k draws.
#![tactic(auto)]

mod draw_bits;
mod generator;
mod refusal;
mod rules;
mod sources;
mod word_list;

pub use draw_bits::{DrawBits, DrawBitsFault};
pub use generator::Generator;
pub use refusal::Refusal;
pub use rules::{Carry, Comparison, Neighbour, Rule};
pub use sources::{Source, SourceFault, Word};
pub use word_list::WordList;

/// Examples: the first words, the draw of a word, and both rules at their edges.
#[cfg(test)]
mod tests {
    use super::*;
    use std::test::Fail;

    #[test]
    fn the_generator_begins(rt: HostRuntime) {
        let mut source = Generator::new(0);
        assert_eq!(rt; source.advance(), Ok(1013904223));
        assert_eq!(rt; source.advance(), Ok(1196435762));
        assert_eq!(rt; source.next_word(), 3519870697);
        assert!(rt; source.has(u64::MAX));
    }

    #[test]
    fn a_list_ends(rt: HostRuntime) -> Result<(), Fail> {
        let mut source = WordList::new(vec![in rt.alloc(); 7u32, 9]?);
        assert!(rt; source.has(0) && source.has(2) && !source.has(3));
        assert_eq!(rt; source.advance(), Ok(7));
        assert_eq!(rt; source.advance(), Ok(9));
        assert!(rt; source.has(0) && !source.has(1) && !source.has(u64::MAX));
        assert_eq!(rt; source.advance(), Err(SourceFault::Exhausted));
        assert_eq!(rt; SourceFault::Exhausted.number(), 8);
        Ok(())
    }

    #[test]
    fn a_list_may_be_borrowed(rt: HostRuntime) {
        let words = [7u32, 9];
        let mut source = WordList::new(&words);
        assert_eq!(rt; source.advance(), Ok(7));
        assert!(rt; source.has(1) && !source.has(2));
        assert_eq!(rt; words, [7, 9]);
    }

    #[test]
    fn draw_bits_are_1_to_32(rt: HostRuntime) -> Result<(), Fail> {
        for k in [0, 33, u64::MAX] {
            assert_eq!(rt; DrawBits::new(k), Err(DrawBitsFault::OutOfRange));
        }
        assert_eq!(rt; DrawBitsFault::OutOfRange.number(), 2);
        assert_eq!(rt; DrawBits::new(1)?.draws(), 2);
        assert_eq!(rt; DrawBits::new(32)?.draws(), 4294967296);
        Ok(())
    }

    /// What a rule says of a word.
    fn said<R: Rule>(
        rt: &HostRuntime,
        rule: &R,
        k: u64,
        count: u64,
        word: u32,
    ) -> Result<Neighbour, Fail> {
        let k = DrawBits::new(k)?;
        let mut source = WordList::new(vec![in rt.alloc(); word]?);
        Ok(source.take()?.decide(rule, k, count))
    }

    #[test]
    fn a_word_decides_by_its_high_bits(rt: HostRuntime) -> Result<(), Fail> {
        for (k, count, word, comparison, carry) in [
            (8, 129, 0x80ff_ffff, Neighbour::Far, Neighbour::Far),
            (8, 128, 0x8000_0000, Neighbour::Near, Neighbour::Far),
            (8, 127, 0x80ff_ffff, Neighbour::Near, Neighbour::Near),
            (1, 1, 0x7fff_ffff, Neighbour::Far, Neighbour::Near),
            (32, 1, 0xffff_ffff, Neighbour::Near, Neighbour::Far),
        ] {
            assert_eq!(rt; said(&rt, &Comparison, k, count, word)?, comparison);
            assert_eq!(rt; said(&rt, &Carry, k, count, word)?, carry);
            assert_eq!(rt; said(&rt, &&Carry, k, count, word)?, carry);
        }
        Ok(())
    }

    #[test]
    fn outside_the_ranges_is_near(rt: HostRuntime) {
        for (k, count, draw) in [(8, 256, 0), (8, 255, 256), (0, 1, 0), (33, 1, u64::MAX)] {
            assert_eq!(rt; Comparison.choose(k, count, draw), Neighbour::Near);
            assert_eq!(rt; Carry.choose(k, count, draw), Neighbour::Near);
        }
    }
}
