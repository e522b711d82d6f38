//! The rounding of `r + p·q` and `r - p·q` to binary32, on a table of sums in all four modes.

#[cfg(test)]
mod tests {
    use crate::operand::register;
    use registers::{Choice, FusedSum, Mode, Pattern, Rounded};

    // The flags that a rounding raises; overflow and underflow come with inexact.
    #[derive(Clone, Copy, PartialEq, Eq, Debug)]
    enum Raised {
        Nothing,
        Inexact,
        Overflow,
        Underflow,
    }

    // A sum, and in each mode its pattern and what is raised.
    #[derive(Clone, Copy)]
    struct Row {
        r: u32,
        choice: Choice,
        p: u32,
        q: u32,
        rounded: [(u32, Raised); 4],
    }

    const MODES: [Mode; 4] = [Mode::NearestEven, Mode::Down, Mode::Up, Mode::TowardZero];

    // Exact; half of the least number, of either sign; half of the last number below `2^-125`; twice the greatest; a tie at the
    // overflow threshold and just below it; ties to even from below and above, and just above a tie; a far smaller term added and
    // taken away; a carry into the next exponent; numbers just below `2^-126`; the least and the greatest of all.
    const ROWS: [Row; 19] = [
        Row {
            r: 0xBF80_0002,
            choice: Choice::Plus,
            p: 0x3F80_0001,
            q: 0x3F80_0001,
            rounded: [
                (0x2880_0000, Raised::Nothing),
                (0x2880_0000, Raised::Nothing),
                (0x2880_0000, Raised::Nothing),
                (0x2880_0000, Raised::Nothing),
            ],
        },
        Row {
            r: 0x0000_0000,
            choice: Choice::Plus,
            p: 0x0000_0001,
            q: 0x3F00_0000,
            rounded: [
                (0x0000_0000, Raised::Underflow),
                (0x0000_0000, Raised::Underflow),
                (0x0000_0001, Raised::Underflow),
                (0x0000_0000, Raised::Underflow),
            ],
        },
        Row {
            r: 0x0000_0000,
            choice: Choice::Plus,
            p: 0x8000_0001,
            q: 0x3F00_0000,
            rounded: [
                (0x8000_0000, Raised::Underflow),
                (0x8000_0001, Raised::Underflow),
                (0x8000_0000, Raised::Underflow),
                (0x8000_0000, Raised::Underflow),
            ],
        },
        Row {
            r: 0x0000_0000,
            choice: Choice::Plus,
            p: 0x00FF_FFFF,
            q: 0x3F00_0000,
            rounded: [
                (0x0080_0000, Raised::Underflow),
                (0x007F_FFFF, Raised::Underflow),
                (0x0080_0000, Raised::Underflow),
                (0x007F_FFFF, Raised::Underflow),
            ],
        },
        Row {
            r: 0x0000_0000,
            choice: Choice::Plus,
            p: 0x80FF_FFFF,
            q: 0x3F00_0000,
            rounded: [
                (0x8080_0000, Raised::Underflow),
                (0x8080_0000, Raised::Underflow),
                (0x807F_FFFF, Raised::Underflow),
                (0x807F_FFFF, Raised::Underflow),
            ],
        },
        Row {
            r: 0x0000_0000,
            choice: Choice::Plus,
            p: 0x7F7F_FFFF,
            q: 0x4000_0000,
            rounded: [
                (0x7F80_0000, Raised::Overflow),
                (0x7F7F_FFFF, Raised::Overflow),
                (0x7F80_0000, Raised::Overflow),
                (0x7F7F_FFFF, Raised::Overflow),
            ],
        },
        Row {
            r: 0x0000_0000,
            choice: Choice::Plus,
            p: 0xFF7F_FFFF,
            q: 0x4000_0000,
            rounded: [
                (0xFF80_0000, Raised::Overflow),
                (0xFF80_0000, Raised::Overflow),
                (0xFF7F_FFFF, Raised::Overflow),
                (0xFF7F_FFFF, Raised::Overflow),
            ],
        },
        Row {
            r: 0x7F7F_FFFF,
            choice: Choice::Plus,
            p: 0x7300_0000,
            q: 0x3F80_0000,
            rounded: [
                (0x7F80_0000, Raised::Overflow),
                (0x7F7F_FFFF, Raised::Inexact),
                (0x7F80_0000, Raised::Overflow),
                (0x7F7F_FFFF, Raised::Inexact),
            ],
        },
        Row {
            r: 0x7F7F_FFFF,
            choice: Choice::Plus,
            p: 0x72FF_FFFF,
            q: 0x3F80_0000,
            rounded: [
                (0x7F7F_FFFF, Raised::Inexact),
                (0x7F7F_FFFF, Raised::Inexact),
                (0x7F80_0000, Raised::Overflow),
                (0x7F7F_FFFF, Raised::Inexact),
            ],
        },
        Row {
            r: 0x3F80_0000,
            choice: Choice::Plus,
            p: 0x3380_0000,
            q: 0x3F80_0000,
            rounded: [
                (0x3F80_0000, Raised::Inexact),
                (0x3F80_0000, Raised::Inexact),
                (0x3F80_0001, Raised::Inexact),
                (0x3F80_0000, Raised::Inexact),
            ],
        },
        Row {
            r: 0x3F80_0001,
            choice: Choice::Plus,
            p: 0x3380_0000,
            q: 0x3F80_0000,
            rounded: [
                (0x3F80_0002, Raised::Inexact),
                (0x3F80_0001, Raised::Inexact),
                (0x3F80_0002, Raised::Inexact),
                (0x3F80_0001, Raised::Inexact),
            ],
        },
        Row {
            r: 0x3F80_0000,
            choice: Choice::Plus,
            p: 0x3380_0001,
            q: 0x3F80_0000,
            rounded: [
                (0x3F80_0001, Raised::Inexact),
                (0x3F80_0000, Raised::Inexact),
                (0x3F80_0001, Raised::Inexact),
                (0x3F80_0000, Raised::Inexact),
            ],
        },
        Row {
            r: 0x3F80_0000,
            choice: Choice::Plus,
            p: 0x0000_0001,
            q: 0x0000_0001,
            rounded: [
                (0x3F80_0000, Raised::Inexact),
                (0x3F80_0000, Raised::Inexact),
                (0x3F80_0001, Raised::Inexact),
                (0x3F80_0000, Raised::Inexact),
            ],
        },
        Row {
            r: 0x3F80_0000,
            choice: Choice::Minus,
            p: 0x0000_0001,
            q: 0x0000_0001,
            rounded: [
                (0x3F80_0000, Raised::Inexact),
                (0x3F7F_FFFF, Raised::Inexact),
                (0x3F80_0000, Raised::Inexact),
                (0x3F7F_FFFF, Raised::Inexact),
            ],
        },
        Row {
            r: 0x3FFF_FFFF,
            choice: Choice::Plus,
            p: 0x3380_0000,
            q: 0x3F80_0000,
            rounded: [
                (0x4000_0000, Raised::Inexact),
                (0x3FFF_FFFF, Raised::Inexact),
                (0x4000_0000, Raised::Inexact),
                (0x3FFF_FFFF, Raised::Inexact),
            ],
        },
        Row {
            r: 0x0080_0000,
            choice: Choice::Minus,
            p: 0x0000_0001,
            q: 0x3E80_0000,
            rounded: [
                (0x0080_0000, Raised::Inexact),
                (0x007F_FFFF, Raised::Underflow),
                (0x0080_0000, Raised::Inexact),
                (0x007F_FFFF, Raised::Underflow),
            ],
        },
        Row {
            r: 0x0080_0000,
            choice: Choice::Minus,
            p: 0x0000_0001,
            q: 0x3F00_0000,
            rounded: [
                (0x0080_0000, Raised::Underflow),
                (0x007F_FFFF, Raised::Underflow),
                (0x0080_0000, Raised::Underflow),
                (0x007F_FFFF, Raised::Underflow),
            ],
        },
        Row {
            r: 0x0000_0001,
            choice: Choice::Plus,
            p: 0x0000_0001,
            q: 0x0000_0001,
            rounded: [
                (0x0000_0001, Raised::Underflow),
                (0x0000_0001, Raised::Underflow),
                (0x0000_0002, Raised::Underflow),
                (0x0000_0001, Raised::Underflow),
            ],
        },
        Row {
            r: 0x7F7F_FFFF,
            choice: Choice::Plus,
            p: 0x7F7F_FFFF,
            q: 0x7F7F_FFFF,
            rounded: [
                (0x7F80_0000, Raised::Overflow),
                (0x7F7F_FFFF, Raised::Overflow),
                (0x7F80_0000, Raised::Overflow),
                (0x7F7F_FFFF, Raised::Overflow),
            ],
        },
    ];

    fn rounded(bits: u32, raised: Raised) -> Rounded {
        Rounded {
            pattern: Pattern::from_bits(bits),
            inexact: raised != Raised::Nothing,
            overflow: raised == Raised::Overflow,
            underflow: raised == Raised::Underflow,
        }
    }

    fn sum(row: Row) -> FusedSum {
        FusedSum {
            r: register(row.r),
            choice: row.choice,
            p: register(row.p),
            q: register(row.q),
        }
    }

    #[test]
    fn sums_in_four_modes(rt: HostRuntime) {
        for row in ROWS {
            for (mode, (bits, raised)) in MODES.into_iter().zip(row.rounded) {
                assert_eq!(rt; sum(row).round(mode), Some(rounded(bits, raised)));
            }
        }
    }

    #[test]
    fn a_sum_that_cancels_is_none(rt: HostRuntime) {
        let one = register(0x3F80_0000);
        let cancelled = FusedSum {
            r: one,
            choice: Choice::Minus,
            p: one,
            q: one,
        };
        assert_eq!(rt; cancelled.round(Mode::Down), None);
        let zeros = FusedSum {
            r: register(0),
            choice: Choice::Plus,
            p: register(0x8000_0000),
            q: one,
        };
        assert_eq!(rt; zeros.round(Mode::Down), None);
    }
}
