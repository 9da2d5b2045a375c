//! Charts of two sittings, nested three deep, and registers of them, in a crate of their own so that `sittings` builds on no kind.

#![tactic(auto)]

#[cfg(test)]
mod tests {
    use chart::kind::Chart;
    use chart::side::Side;
    use chart::table::Table;
    use chart::top::Top;
    use choice::charts::Choice;
    use register::call::Call;
    use register::register::Register;
    use sittings::two::Sittings;
    use std::alloc::Global;
    use std::fmt::Display;
    use std::process::Abort;
    use weighted::charts::Weighted;

    type Two = Sittings<Choice, Weighted>;

    type Three = Sittings<Two, Choice>;

    type Four = Sittings<Weighted, Three>;

    fn two(rt: &impl Abort) -> Two {
        Sittings::new(Choice::fresh(), Weighted::fresh())
            .ok()
            .expect(rt, "a fit")
    }

    fn three(rt: &impl Abort) -> Three {
        Sittings::new(two(rt), Choice::fresh())
            .ok()
            .expect(rt, "a fit")
    }

    fn four(rt: &impl Abort) -> Four {
        Sittings::new(Weighted::fresh(), three(rt))
            .ok()
            .expect(rt, "a fit")
    }

    fn top(rt: &impl Abort, number: u64) -> Top {
        Top::new(number).ok().expect(rt, "a top")
    }

    #[test]
    fn nested(rt: HostRuntime) {
        let chart = four(&rt);
        assert_eq!(&rt; chart.sections(), 1);
        assert_eq!(&rt; chart.discount(), (1, 2));
        assert_eq!(&rt; chart.longest(), 2048 + 3072 + 1 + 2048 + 1 + 3072 + 1);
        assert!(&rt; !chart.apart(0, 0));
    }

    fn weighs<C: Chart>(
        rt: &impl Abort,
        heap: Global,
        chart: &C,
        side: Side,
        words: &[i32],
        text: &str,
    )
    where
        C::Fault: Display + Drop,
    {
        let table = Table::starting(chart, side, top(rt, 8));
        let answer = match chart.weigh(side, &table, 0, 0, words) {
            Ok(claim) => claim.to_string(heap),
            Err(fault) => fault.to_string(heap),
        };
        assert_eq!(rt; answer.expect(rt, "memory").as_str(), text);
    }

    #[test]
    fn pairings(rt: HostRuntime) {
        let heap = rt.alloc();
        let chart = four(&rt);
        let side = Side::Upper;
        // Three words for the weighted chart, then for the two others: six for the first two, of which two for the choice chart.
        let words = [3, 0, 0, 1, 6, 2, 0, 0, 0, 0, 1, 0, 0];
        weighs(&rt, heap, &chart, side, &words, "4");
        let wrong_amount = [3, 0, 0, 1, 6, 2, 0, 0, 0, 0, 2, 0, 0];
        weighs(
            &rt,
            heap,
            &chart,
            side,
            &wrong_amount,
            "1 0 1 103 2 (word 2 is no amount from 1 to the parts of a row)",
        );
        let few = "1 0 141 0 (a pairing begins with how many of the words left are for sitting 0)";
        weighs(&rt, heap, &chart, side, &[3, 0, 0, 1, 0, 0, 0], few);
        let none = "141 0 (a pairing begins with how many of the words left are for sitting 0)";
        weighs(&rt, heap, &chart, side, &[], none);
        weighs(&rt, heap, &chart, side, &[-1], none);
        weighs(&rt, heap, &chart, side, &[3, 0, 0], none);
    }

    #[test]
    fn potentials(rt: HostRuntime) {
        let heap = rt.alloc();
        let chart = four(&rt);
        let side = Side::Lower;
        weighs(&rt, heap, &chart, side, &[0, 0, 0], "0");
        weighs(&rt, heap, &chart, side, &[1, 0, 1, 0, 0], "0");
        let range = "0 112 1 (word 1 is further from 0 than the top)";
        weighs(&rt, heap, &chart, side, &[0, 0, 9], range);
        let deep = "1 0 1 112 1 (word 1 is further from 0 than the top)";
        weighs(&rt, heap, &chart, side, &[1, 0, 1, 0, 9], deep);
        let none = "1 142 0 (potentials begin with their sitting, 0 or 1)";
        weighs(&rt, heap, &chart, side, &[1], none);
        weighs(&rt, heap, &chart, side, &[1, 2, 0], none);
        weighs(&rt, heap, &chart, side, &[1, -1, 0], none);
    }

    #[test]
    fn misfit(rt: HostRuntime) {
        let mut other = Choice::fresh();
        let file = [
            0, 2, 0, 3, 0, 1, 0, 2, 0, 0, 0, 16, 0, 19, 0, 31, 0, 1, 0, 0, 0, 0, 3, 0, 0, 0, 2, 0,
            0, 0, 4,
        ];
        assert!(&rt; other.read(&file).is_ok());
        let misfit = Sittings::new(two(&rt), other).err().expect(&rt, "no fit");
        assert_eq!(&rt; misfit.first.sections(), 1);
        assert_eq!(&rt; misfit.second.sections(), 3);
        let text = misfit.to_string(rt.alloc()).expect(&rt, "memory");
        assert!(&rt; text.as_str().starts_with("12 ("));
    }

    #[test]
    fn register(rt: HostRuntime) {
        let heap = rt.alloc();
        let mut register = Register::new(four(&rt), top(&rt, 8));
        let (s, t) = (0, 0);
        assert!(&rt; register.call(Call::Open(Side::Upper)).is_ok());
        assert!(&rt; register.call(Call::Claim { s, t, value: 4 }).is_ok());
        assert!(&rt; register.call(Call::Close).is_ok());
        let words = &[3, 0, 0, 1, 6, 2, 0, 0, 0, 0, 1, 0];
        let refusal = register
            .call(Call::Show { s, t, words })
            .err()
            .expect(&rt, "a fault");
        let text = refusal.to_string(heap).expect(&rt, "memory");
        assert!(&rt; text.as_str().starts_with("54 1 1 121 1 ("));
        let words = &[3, 0, 0, 1, 6, 2, 0, 0, 0, 0, 1, 0, 0];
        assert!(&rt; register.call(Call::Show { s, t, words }).is_ok());
        assert!(&rt; register.call(Call::Enter).is_ok());
    }

    /// A weighted chart of four sections, of which section 1 is in a band of its own.
    fn four_sections(rt: &impl Abort) -> Weighted {
        let mut chart = Weighted::fresh();
        let file = [
            0, 1, 0, 4, 0, 1, 0, 2, 0, 4, 0, 16, 0, 20, 0, 52, 0, 1, 0, 0, 0, 3, 0, 1, 0, 0, 0, 0,
            0, 0, 0, 4, 0, 0, 0, 0, 0, 0, 0, 2, 0, 2, 0, 0, 0, 0, 0, 0, 0, 0, 0, 4,
        ];
        assert!(rt; chart.read(&file).is_ok());
        chart
    }

    /// Claims a value for the sections 0 and 3, shows it and enters it.
    fn enters<C: Chart>(
        rt: &impl Abort,
        register: &mut Register<C>,
        side: Side,
        value: u32,
        words: &[i32],
    )
    where
        C::Fault: Drop,
    {
        let (s, t) = (0, 3);
        assert!(rt; register.call(Call::Open(side)).is_ok());
        assert!(rt; register.call(Call::Claim { s, t, value }).is_ok());
        assert!(rt; register.call(Call::Close).is_ok());
        assert!(rt; register.call(Call::Show { s, t, words }).is_ok());
        assert!(rt; register.call(Call::Enter).is_ok());
    }

    #[test]
    fn settled_alike(rt: HostRuntime) {
        let twice = Sittings::new(four_sections(&rt), four_sections(&rt))
            .ok()
            .expect(&rt, "a fit");
        let mut once = Register::new(four_sections(&rt), top(&rt, 30));
        let mut twice = Register::new(twice, top(&rt, 60));
        enters(&rt, &mut once, Side::Upper, 6, &[0, 3, 3, 1, 3, 1]);
        enters(&rt, &mut once, Side::Lower, 6, &[6, 30, 0, 0, 0, 0, 0, 0]);
        let words = [6, 0, 3, 3, 1, 3, 1, 0, 3, 3, 1, 3, 1];
        enters(&rt, &mut twice, Side::Upper, 12, &words);
        assert_eq!(&rt; once.settled_with(&twice, 0, 3), None);
        let words = [1, 12, 60, 0, 0, 0, 0, 0, 0];
        enters(&rt, &mut twice, Side::Lower, 12, &words);
        // 6 of 30, and 12 of 60.
        assert_eq!(&rt; once.settled_with(&twice, 0, 3), Some((6, 12)));
        assert_eq!(&rt; once.settled_with(&twice, 0, 1), None);
    }
}
