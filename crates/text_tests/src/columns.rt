//! Columns: signs, needless zeros, stray bytes, the ends of the 32-bit numbers and one past them.

#[cfg(test)]
mod tests {
    use text::{Cause, read_column, write_column};

    static CASES: [(&[u8], Result<i32, Cause>); 26] = [
        (b"             0", Ok(0)),
        (b"            +0", Ok(0)),
        (b"            -7", Ok(-7)),
        (b"           +70", Ok(70)),
        (b"    2147483647", Ok(2147483647)),
        (b"   -2147483648", Ok(-2147483648)),
        (b"    2147483648", Err(Cause::Range)),
        (b"   -2147483649", Err(Cause::Range)),
        (b"99999999999999", Err(Cause::Range)),
        (b"-9999999999999", Err(Cause::Range)),
        (b"            -0", Err(Cause::Digits)),
        (b"            00", Err(Cause::Digits)),
        (b"           +07", Err(Cause::Digits)),
        (b"           -07", Err(Cause::Digits)),
        (b"             -", Err(Cause::Digits)),
        (b"             +", Err(Cause::Digits)),
        (b"           +-1", Err(Cause::Digits)),
        (b"              ", Err(Cause::Digits)),
        (b"            1 ", Err(Cause::Digits)),
        (b"           1 2", Err(Cause::Digits)),
        (b"\t            1", Err(Cause::Digits)),
        (b"\0            1", Err(Cause::Digits)),
        (b"            \xB91", Err(Cause::Digits)),
        (b"           1.0", Err(Cause::Digits)),
        (b"            1", Err(Cause::Digits)),
        (b"              1", Err(Cause::Digits)),
    ];

    #[test]
    fn columns_stand_for_numbers(rt: HostRuntime) {
        for (column, says) in CASES {
            assert_eq!(rt; read_column(column), says);
        }
    }

    #[test]
    fn numbers_come_back(rt: HostRuntime) {
        assert_eq!(rt; write_column(-2147483648), *b"   -2147483648");
        assert_eq!(rt; write_column(0), *b"             0");
        for n in [0, -1, 10, 2147483647, -2147483648] {
            assert_eq!(rt; read_column(&write_column(n)), Ok(n));
        }
    }
}
