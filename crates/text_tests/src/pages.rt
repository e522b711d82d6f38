//! Page lines: rows at their bounds, refusals, full pages.

#[cfg(test)]
mod tests {
    use std::test::Fail;
    use text::{Refusal, Row, write_refusal, write_row};

    #[derive(Clone, Copy)]
    struct Case {
        distance: u64,
        offset: i64,
        text: [u8; 29],
    }

    static CASES: [Case; 6] = [
        Case {
            distance: 0,
            offset: 0,
            text: *b"         0.000         0.000\n",
        },
        Case {
            distance: 1,
            offset: -500,
            text: *b"         0.001        -0.500\n",
        },
        Case {
            distance: 999,
            offset: -1,
            text: *b"         0.999        -0.001\n",
        },
        Case {
            distance: 1_000,
            offset: 12_345,
            text: *b"         1.000        12.345\n",
        },
        Case {
            distance: 99_999_999_999,
            offset: 9_999_999_999,
            text: *b"  99999999.999   9999999.999\n",
        },
        Case {
            distance: 10_000_000_000,
            offset: -9_999_999_999,
            text: *b"  10000000.000  -9999999.999\n",
        },
    ];

    #[test]
    fn rows_are_written(rt: HostRuntime) -> Result<(), Fail> {
        for case in &CASES {
            let row = Row::new(case.distance, case.offset).ok_or_else(|| Fail::new(
                "out of range",
            ))?;
            let mut page = [b'.'; 31];
            assert_eq!(rt; write_row(&mut page, 1, row), Ok(()));
            assert_eq!(rt; page[0], b'.');
            assert_eq!(rt; &page[1..30], &case.text[..]);
            assert_eq!(rt; page[30], b'.');
        }
        assert!(rt; Row::new(100_000_000_000, 0).is_none());
        assert!(rt; Row::new(0, 10_000_000_000).is_none());
        assert!(rt; Row::new(0, -10_000_000_000).is_none());
        Ok(())
    }

    #[test]
    fn refusals_are_written(rt: HostRuntime) {
        let mut page = [b'.'; 30];
        assert_eq!(rt; write_refusal(&mut page, 1, 6, 1_000_000), Ok(()));
        assert_eq!(rt; page, *b".            R6       1000000\n");
        assert_eq!(rt; write_refusal(&mut page, 0, 3, 1), Ok(()));
        assert_eq!(rt; page, *b"            R3             1\n\n");
    }

    #[test]
    fn refused_calls_leave_the_page(rt: HostRuntime) -> Result<(), Fail> {
        let row = Row::new(1, 1).ok_or_else(|| Fail::new("out of range"))?;
        let mut page = [b'.'; 29];
        assert_eq!(rt; write_row(&mut page, 1, row), Err(Refusal::PageFull));
        assert_eq!(rt; write_row(&mut page, 29, row), Err(Refusal::PageFull));
        assert_eq!(rt;
            write_row(&mut page, usize::MAX, row),
            Err(Refusal::PageFull)
        );
        assert_eq!(rt; write_refusal(&mut page, 1, 4, 1), Err(Refusal::PageFull));
        assert_eq!(rt; write_refusal(&mut page, 1, 5, 1), Err(Refusal::Unwritable));
        assert_eq!(rt; write_refusal(&mut page, 0, 6, 0), Err(Refusal::Unwritable));
        assert_eq!(rt;
            write_refusal(&mut page, 0, 6, 1_000_001),
            Err(Refusal::Unwritable)
        );
        assert_eq!(rt; page, [b'.'; 29]);
        Ok(())
    }
}
