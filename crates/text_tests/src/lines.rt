//! Plan lines: the order of the causes, carriage returns, the length of a remark, a last line without its byte 10.

#[cfg(test)]
mod tests {
    use std::test::Fail;
    use text::{Cause, Entry, Fault, Layer, Lines, Refusal, judge_line, next_line, read_line};

    const fn fault(cause: Cause, byte: u32) -> Result<Entry, Fault> {
        Err(Fault { cause, byte })
    }

    fn cases() -> [(&'static [u8], Result<Entry, Fault>); 19] {
        [
            (
                b"D             1            -2             3\n",
                Ok(Entry::Datum {
                    x: 1,
                    y: -2,
                    pitch: 3,
                }),
            ),
            (
                b"T             1            -2\n",
                Ok(Entry::Tab { x: 1, y: -2 }),
            ),
            (b"#\n", Ok(Entry::Remark)),
            (b"#\xFF\0\r\n", Ok(Entry::Remark)),
            (b"\n", fault(Cause::Letter, 0)),
            (b"", fault(Cause::Letter, 0)),
            (b"d\n", fault(Cause::Letter, 0)),
            (b"X", fault(Cause::Letter, 0)),
            (b"D", fault(Cause::Length, 0)),
            (b"#", fault(Cause::Length, 0)),
            (b"T             1            -2", fault(Cause::Length, 0)),
            (
                b"T             1            -2\r\n",
                fault(Cause::Length, 0),
            ),
            (b"T             1            -2 ", fault(Cause::Length, 0)),
            (b"T    2147483648             x\n", fault(Cause::Digits, 15)),
            (b"T    2147483648    2147483648\n", fault(Cause::Range, 1)),
            (
                b"D             1             -             -\n",
                fault(Cause::Digits, 15),
            ),
            (
                b"D             x             1    2147483648\n",
                fault(Cause::Digits, 1),
            ),
            (
                b"D             1   -2147483649             -\n",
                fault(Cause::Digits, 29),
            ),
            (
                b"D             1             1    2147483648\n",
                fault(Cause::Range, 29),
            ),
        ]
    }

    #[test]
    fn lines_say_numbers_or_faults(rt: HostRuntime) {
        for (line, says) in cases() {
            assert_eq!(rt; read_line(line), says);
        }
    }

    #[test]
    fn remarks_have_at_most_78_bytes(rt: HostRuntime) {
        let mut line = [b'#'; 81];
        line[79] = b'\n';
        assert_eq!(rt; read_line(&line[0..80]), Ok(Entry::Remark));
        line[79] = b'#';
        line[80] = b'\n';
        assert_eq!(rt; read_line(&line), fault(Cause::Length, 0));
    }

    #[test]
    fn lines_are_counted(rt: HostRuntime) {
        assert_eq!(rt; judge_line(b"#\n", 999_999), Ok(Entry::Remark));
        assert_eq!(rt;
            judge_line(b"#\n", 1_000_000),
            Err(Refusal::BadLine {
                cause: Cause::Count,
                line: 1_000_000,
                byte: 0,
                layer: Layer::Text,
            })
        );
    }

    #[test]
    fn a_text_falls_into_lines(rt: HostRuntime) -> Result<(), Fail> {
        let lines: [&[u8]; 3] = [b"T\n", b"\n", b"#a"];
        let mut rest: &[u8] = b"T\n\n#a";
        for line in lines {
            let next = next_line(rest).ok_or_else(|| Fail::new("no line"))?;
            assert_eq!(rt; next.line, line);
            rest = next.rest;
        }
        assert!(rt; next_line(rest).is_none());
        Ok(())
    }

    #[test]
    fn lines_come_in_order(rt: HostRuntime) {
        let lines: [&[u8]; 3] = [b"T\n", b"\n", b"#a"];
        let mut left = Lines::new(b"T\n\n#a");
        for line in lines {
            assert_eq!(rt; left.next(), Some(line));
        }
        assert_eq!(rt; left.next(), None);
    }
}
