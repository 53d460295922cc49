//! Fixed point: s sign bits, i integer bits and p fractional bits, 2 to 32 in all, written s8.7 or u0.32.
//!
//! `Fixed` cannot have other sizes. It is a `Format`: its numbers are the codes below 2^(s+i+p), in two's complement where s is 1, its
//! unit is 2^-p, and near is the lower neighbour. Splits are straight-line integer arithmetic: one product and two divisions at most.
#![tactic(auto)]

mod exact;
mod faults;
mod format;
mod fraction;
mod number;
mod placing;
mod sizes;

pub use faults::SizesFault;
pub use sizes::Fixed;

/// Examples: sizes at both ends of their range, the corners of 2 and 32 bits, and the order of refusals.
#[cfg(test)]
mod tests {
    use super::*;
    use draws::Refusal;
    use formats::{Format, FormatFault, Operation, Split};
    use std::test::Fail;

    #[test]
    fn sizes_have_ends(rt: HostRuntime) -> Result<(), Fail> {
        for (s, i, p) in [
            (0, 0, 1),
            (2, 8, 7),
            (1, 16, 16),
            (0, u64::MAX, 9),
            (1, 1, u64::MAX),
        ] {
            assert_eq!(rt; Fixed::new(s, i, p), Err(SizesFault::OutOfRange));
        }
        for (s, i, p, least, greatest) in [
            (0, 0, 2, 0, 3),
            (1, 1, 0, 2, 1),
            (0, 0, 32, 0, 0xffff_ffff),
            (1, 0, 31, 0x8000_0000, 0x7fff_ffff),
        ] {
            let format = Fixed::new(s, i, p)?;
            assert_eq!(rt; format.least(), least);
            assert_eq!(rt; format.greatest(), greatest);
            assert_eq!(rt; format.next_above(greatest), Ok(None));
            assert_eq!(rt; format.next_below(least), Ok(None));
        }
        assert_eq!(rt; SizesFault::OutOfRange.number(), 1);
        Ok(())
    }

    /// A split that is not clamped.
    fn within(near: u32, far: u32, count: u64) -> Split {
        Split {
            parts: (near, far, count),
            clamped: false,
        }
    }

    /// The split of what is beyond an end.
    fn beyond(end: u32) -> Split {
        Split {
            parts: (end, end, 0),
            clamped: true,
        }
    }

    #[test]
    fn splits_in_s8_7(rt: HostRuntime) -> Result<(), Fail> {
        let format = Fixed::new(1, 8, 7)?;
        for (asked, split) in [
            (Operation::Product.of(0x81, 0x81), within(0x82, 0x83, 2)),
            (Operation::Product.of(0xffff, 1), within(0xffff, 0, 254)),
            (Operation::Quotient.of(0x80, 0x180), within(0x2a, 0x2b, 170)),
            (Operation::Sum.of(0x7fff, 1), beyond(0x7fff)),
        ] {
            assert_eq!(rt; format.split(asked, 8), Ok(split));
        }
        Ok(())
    }

    #[test]
    fn splits_at_the_corners(rt: HostRuntime) -> Result<(), Fail> {
        let top = 0xffff_ffff;
        let product = Operation::Product.of(top, top);
        let least = Operation::Product.of(0x8000_0000, 0x8000_0000);
        for ((s, i, p), k, asked, split) in [
            ((0, 0, 32), 32, product, within(0xffff_fffe, top, 1)),
            (
                (0, 0, 32),
                32,
                Operation::Quotient.of(1, top),
                within(1, 2, 1),
            ),
            ((1, 0, 31), 1, least, beyond(0x7fff_ffff)),
            ((1, 1, 0), 1, Operation::Quotient.of(2, 3), beyond(1)),
            ((0, 2, 0), 1, Operation::Difference.of(1, 2), beyond(0)),
        ] {
            assert_eq!(rt; Fixed::new(s, i, p)?.split(asked, k), Ok(split));
        }
        Ok(())
    }

    #[test]
    fn refuses_in_order(rt: HostRuntime) -> Result<(), Fail> {
        let format = Fixed::new(1, 8, 7)?;
        for (left, right, k, fault) in [
            (0x10000, 0x10000, 33, FormatFault::DrawBitsOutOfRange),
            (0xffff_ffff, 0, 8, FormatFault::NotANumber),
            (0, 0x10000, 8, FormatFault::NotANumber),
            (0, 0, 8, FormatFault::ZeroDivisor),
        ] {
            assert_eq!(rt;
                format.split(Operation::Quotient.of(left, right), k),
                Err(fault)
            );
        }
        assert_eq!(rt; format.next_above(0x10000), Err(FormatFault::NotANumber));
        assert_eq!(rt; format.next_above(0xffff), Ok(Some(0)));
        assert_eq!(rt; format.next_below(0), Ok(Some(0xffff)));
        Ok(())
    }
}
