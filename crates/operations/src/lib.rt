//! The operations of a number format, stochastically rounded: sum, difference, product and quotient.
//!
//! Each takes the exact result, has the format split it into a near code, a far code and a count, and takes one word from a source:
//! its draw decides by a rule which of the two is the result. Proved once for every format, rule and source: where nothing is
//! clamped, the values of the results over all 2^k draws add up to 2^k times the exact result, but for the fraction that the
//! count drops.
#![tactic(auto)]

mod faults;
mod performing;
mod rounding;

pub use faults::OperationFault;
pub use performing::Arithmetic;
pub use rounding::{Rounded, round};

/// Examples: both rules around the count, and refusals that leave the source alone.
#[cfg(test)]
mod tests {
    use super::*;
    use draws::{Carry, Comparison, DrawBits, Source, SourceFault, WordList};
    use formats::Split;
    use std::test::Fail;

    #[test]
    fn a_split_is_rounded_by_its_word(rt: HostRuntime) -> Result<(), Fail> {
        let k = DrawBits::new(8)?;
        let split = Split {
            parts: (5, 6, 2),
            clamped: false,
        };
        for (word, comparison, carry) in [
            (0x01ff_ffff, 6, 5),
            (0x0200_0000, 5, 5),
            (0xfdff_ffff, 5, 5),
            (0xfe00_0000, 5, 6),
        ] {
            let mut source = WordList::new(vec![in rt.alloc(); word, word]?);
            assert_eq!(rt; round(split, k, &Comparison, &mut source)?.code, comparison);
            assert_eq!(rt; round(split, k, &Carry, &mut source)?.code, carry);
            assert_eq!(rt;
                round(split, k, &Carry, &mut source),
                Err(SourceFault::Exhausted)
            );
        }
        Ok(())
    }
}
