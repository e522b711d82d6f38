//! Decoding and encoding, and the bounds of register numbers, on examples.

#[cfg(test)]
mod tests {
    use registers::limits::{GREATEST_EXPONENT, LEAST_EXPONENT};
    use registers::{Datum, Mode, Number, Pattern, UnknownMode};

    // Zeros, the least and the greatest subnormal numbers, the least normal, 1, 3, the greatest, and the infinities.
    const NUMBERS: [u32; 12] = [
        0x0000_0000,
        0x8000_0000,
        0x0000_0001,
        0x8000_0001,
        0x007F_FFFF,
        0x0080_0000,
        0x3F80_0000,
        0xC040_0000,
        0x7F7F_FFFF,
        0xFF7F_FFFF,
        0x7F80_0000,
        0xFF80_0000,
    ];

    #[test]
    fn numbers_come_back(rt: HostRuntime) {
        for bits in NUMBERS {
            assert_eq!(rt; Pattern::from_bits(bits).decode().encode().bits(), bits);
        }
    }

    // NaNs of either sign, and whether they are quiet.
    const NANS: [(u32, bool); 4] = [
        (0x7FC0_0000, true),
        (0xFFFF_FFFF, true),
        (0x7F80_0001, false),
        (0xFFBF_FFFF, false),
    ];

    #[test]
    fn every_nan_given_out_is_one(rt: HostRuntime) {
        for (bits, quiet) in NANS {
            let nan = Pattern::from_bits(bits).decode();
            assert_eq!(rt; nan, Datum::Nan { quiet });
            assert_eq!(rt; nan.encode().bits(), 0x7FC0_0000);
        }
        assert_eq!(rt;
            Pattern::from_bits(0x7F80_0000).decode(),
            Datum::Infinity { negative: false }
        );
    }

    // An exponent, a significand, and whether a register number has them.
    const PARTS: [(i32, u32, bool); 7] = [
        (LEAST_EXPONENT, 0x2000_0000, true),
        (GREATEST_EXPONENT, 0x3FFF_FFFF, true),
        (LEAST_EXPONENT - 1, 0x2000_0000, false),
        (GREATEST_EXPONENT + 1, 0x2000_0000, false),
        (0, 0x1FFF_FFFF, false),
        (0, 0x4000_0000, false),
        (i32::MIN, u32::MAX, false),
    ];

    #[test]
    fn bounds_of_register_numbers(rt: HostRuntime) {
        for (exponent, significand, builds) in PARTS {
            assert_eq!(rt; Number::new(true, exponent, significand).is_some(), builds);
        }
    }

    #[test]
    fn modes_by_number(rt: HostRuntime) {
        let modes = [Mode::NearestEven, Mode::Down, Mode::Up, Mode::TowardZero];
        for (n, mode) in [0, 1, 2, 3].into_iter().zip(modes) {
            assert_eq!(rt; Mode::try_from(n), Ok(mode));
            assert_eq!(rt; u32::from(mode), n);
        }
        for n in [4, u32::MAX] {
            assert_eq!(rt; Mode::try_from(n), Err(UnknownMode(n)));
        }
    }
}
