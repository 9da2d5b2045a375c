//! Lines at the edges of what `commands` reads, in a crate of their own so that `commands` is proved once.

#![tactic(auto)]

#[cfg(test)]
mod tests {
    use chart::side::Side;
    use commands::command::Command;
    use commands::line::read_line;
    use lines::malformed::Malformed;
    use lines::parts::read_words;
    use std::alloc::Global;
    use std::process::Abort;

    fn reads(rt: &impl Abort, heap: Global, line: &[u8], command: Option<Command>, all: &[i32]) {
        let mut words = Vec::new(heap);
        assert_eq!(rt; read_line(line, &mut words), Ok(command));
        assert!(rt; words.as_slice() == all);
    }

    fn refuses(rt: &impl Abort, heap: Global, line: &[u8], why: Malformed) {
        let mut words = Vec::new(heap);
        assert_eq!(rt; read_line(line, &mut words), Err(why));
    }

    #[test]
    fn edges(rt: HostRuntime) {
        let heap = rt.alloc();
        let (side, s, t) = (Side::Lower, 4294967295, 7);
        let least = Some(Command::Weigh { side, s, t });
        reads(
            &rt,
            heap,
            b"\tweigh lower  4294967295 007\r -2147483648 -0\r",
            least,
            &[-2147483648, 0],
        );
        let (side, s, t) = (Side::Upper, 0, 3);
        let greatest = Some(Command::Weigh { side, s, t });
        reads(
            &rt,
            heap,
            b"weigh upper 0 3 2147483647",
            greatest,
            &[2147483647],
        );
        let (s, t, value) = (0, 3, 4294967295);
        let claim = Some(Command::Claim { s, t, value });
        reads(&rt, heap, b"claim 0 3 4294967295 ", claim, &[]);
        reads(&rt, heap, b"show 0 3", Some(Command::Show { s, t }), &[]);
        reads(&rt, heap, b"abandon\r", Some(Command::Abandon), &[]);
        reads(&rt, heap, b" \t\r", None, &[]);
        reads(&rt, heap, b" #weigh upper x", None, &[]);
    }

    #[test]
    fn words(rt: HostRuntime) {
        let mut words = Vec::new(rt.alloc());
        assert_eq!(&rt; read_words(b" 1 -2\t003 ", &mut words), Ok(()));
        assert!(&rt; words.as_slice() == [1, -2, 3].as_slice());
    }

    #[test]
    fn refusals(rt: HostRuntime) {
        let heap = rt.alloc();
        refuses(&rt, heap, b"weighs upper 0 3", Malformed::UnknownCommand);
        refuses(&rt, heap, b"weigh upper 0", Malformed::TooFewFields);
        refuses(&rt, heap, b"weigh under x", Malformed::NotASide(1));
        refuses(&rt, heap, b"weigh upper +1 x", Malformed::NotANumber(2));
        refuses(
            &rt,
            heap,
            b"weigh upper 0 4294967296",
            Malformed::NotANumber(3),
        );
        refuses(&rt, heap, b"claim 0 3 -1 x", Malformed::NotANumber(3));
        refuses(&rt, heap, b"ask 0 3 6", Malformed::TooManyFields);
        refuses(&rt, heap, b"enter x", Malformed::TooManyFields);
        refuses(&rt, heap, b"open", Malformed::TooFewFields);
        refuses(&rt, heap, b"show 0 3 -", Malformed::NotAWord(0));
        refuses(
            &rt,
            heap,
            b"weigh upper 0 3 1 2147483648",
            Malformed::NotAWord(1),
        );
        refuses(
            &rt,
            heap,
            b"weigh upper 0 3 1 2 -2147483649",
            Malformed::NotAWord(2),
        );
    }
}
