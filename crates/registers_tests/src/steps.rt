//! The fused step on examples: ties, carries, cancellation, the ends of the exponents and refusals.

#[cfg(test)]
mod tests {
    use crate::operand::number;
    use registers::limits::{GREATEST_EXPONENT, LEAST_EXPONENT};
    use registers::{Choice, FusedSum, Register};

    const LOW: u32 = 0x2000_0000;

    const HIGH: u32 = 0x3FFF_FFFF;

    // The step, or the number of its refusal.
    fn step(
        r: Register,
        choice: Choice,
        p: Register,
        q: Register,
        width: u32,
    ) -> Result<Register, u32> {
        FusedSum { r, choice, p, q }.step(width).map_err(u32::from)
    }

    #[test]
    fn cancels_to_zero(rt: HostRuntime) {
        let x = number(false, 3, 0x2ABC_DEF1);
        let one = number(false, 0, LOW);
        assert_eq!(rt; step(x, Choice::Minus, x, one, 30), Ok(Register::Zero));
        assert_eq!(rt;
            step(Register::Zero, Choice::Minus, x, Register::Zero, 24),
            Ok(Register::Zero)
        );
    }

    #[test]
    fn ties_go_to_the_even_one(rt: HostRuntime) {
        let one = number(false, 0, LOW);
        let half = number(false, -30, LOW);
        assert_eq!(rt;
            step(one, Choice::Plus, half, one, 30),
            Ok(number(false, 0, LOW))
        );
        assert_eq!(rt;
            step(number(false, 0, LOW + 1), Choice::Plus, half, one, 30),
            Ok(number(false, 0, LOW + 2))
        );
        assert_eq!(rt;
            step(one, Choice::Plus, number(false, -30, LOW + 1), one, 30),
            Ok(number(false, 0, LOW + 1))
        );
        assert_eq!(rt;
            step(one, Choice::Plus, number(true, -31, LOW), one, 30),
            Ok(number(false, 0, LOW))
        );
        assert_eq!(rt;
            step(one, Choice::Plus, number(true, -31, LOW + 1), one, 30),
            Ok(number(false, -1, HIGH))
        );
    }

    #[test]
    fn rounds_the_addend_alone_to_24_bits(rt: HostRuntime) {
        let r = number(false, 5, LOW + 32);
        assert_eq!(rt;
            step(r, Choice::Plus, Register::Zero, Register::Zero, 24),
            Ok(number(false, 5, LOW))
        );
        assert_eq!(rt;
            step(
                number(false, 5, LOW + 96),
                Choice::Plus,
                Register::Zero,
                r,
                24
            ),
            Ok(number(false, 5, LOW + 128))
        );
        assert_eq!(rt;
            step(
                number(true, 5, LOW + 33),
                Choice::Plus,
                r,
                Register::Zero,
                24
            ),
            Ok(number(true, 5, LOW + 64))
        );
    }

    #[test]
    fn carries_into_the_next_exponent(rt: HostRuntime) {
        let one = number(false, 0, LOW);
        assert_eq!(rt;
            step(
                number(false, 0, HIGH),
                Choice::Plus,
                number(false, -30, LOW),
                one,
                30
            ),
            Ok(number(false, 1, LOW))
        );
        assert_eq!(rt;
            step(number(true, 7, HIGH), Choice::Plus, Register::Zero, one, 24),
            Ok(number(true, 8, LOW))
        );
    }

    #[test]
    fn a_far_smaller_term_decides_a_tie(rt: HostRuntime) {
        let tie = number(false, 0, LOW + 32);
        let tiny = number(false, LEAST_EXPONENT, LOW);
        let one = number(false, 0, LOW);
        assert_eq!(rt;
            step(tie, Choice::Plus, tiny, one, 24),
            Ok(number(false, 0, LOW + 64))
        );
        assert_eq!(rt;
            step(tie, Choice::Minus, tiny, one, 24),
            Ok(number(false, 0, LOW))
        );
    }

    #[test]
    fn the_ends_of_the_exponents(rt: HostRuntime) {
        let one = number(false, 0, LOW);
        let half = number(false, -1, LOW);
        let least = number(false, LEAST_EXPONENT, LOW);
        let greatest = number(false, GREATEST_EXPONENT, HIGH);
        assert_eq!(rt;
            step(Register::Zero, Choice::Plus, least, one, 30),
            Ok(number(false, LEAST_EXPONENT, LOW))
        );
        assert_eq!(rt; step(Register::Zero, Choice::Plus, least, half, 30), Err(7));
        assert_eq!(rt;
            step(Register::Zero, Choice::Plus, least, least, 24),
            Err(7)
        );
        assert_eq!(rt;
            step(Register::Zero, Choice::Plus, greatest, one, 30),
            Ok(number(false, GREATEST_EXPONENT, HIGH))
        );
        assert_eq!(rt;
            step(Register::Zero, Choice::Plus, greatest, one, 24),
            Err(7)
        );
        assert_eq!(rt; step(greatest, Choice::Plus, greatest, one, 30), Err(7));
        assert_eq!(rt;
            step(greatest, Choice::Minus, greatest, one, 30),
            Ok(Register::Zero)
        );
    }

    #[test]
    fn other_widths_are_refused_first(rt: HostRuntime) {
        let least = number(false, LEAST_EXPONENT, LOW);
        for width in [0, 1, 23, 25, 29, 31, u32::MAX] {
            assert_eq!(rt;
                step(Register::Zero, Choice::Plus, least, least, width),
                Err(5)
            );
        }
    }
}
