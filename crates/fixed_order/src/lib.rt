//! A small kind of chart, worked through: a test whose sections follow one another in a fixed order.

#![tactic(auto)]

pub mod fault;
pub mod order;

#[cfg(test)]
mod tests {
    use crate::order::FixedOrder;
    use chart::side::Side;
    use chart::top::Top;
    use history::verdict::Verdict;
    use register::call::Call;
    use register::register::Register;

    // After section 0 comes section 1, of another band; sections 1 and 2 stay where they are.
    #[test]
    fn settles(rt: HostRuntime) {
        let mut bands = [0; 32];
        bands[1] = 1;
        let mut next = [0; 32];
        next[0] = 1;
        next[1] = 1;
        next[2] = 2;
        let chart = FixedOrder::new(3, 1, 2, bands, next).expect(&rt, "a chart");
        let top = Top::new(8).ok().expect(&rt, "a top");
        let mut register = Register::new(chart, top);
        for side in [Side::Upper, Side::Lower] {
            let claim = Call::Claim {
                s: 0,
                t: 2,
                value: 4,
            };
            let show = Call::Show {
                s: 0,
                t: 2,
                words: &[],
            };
            for call in [Call::Open(side), claim, Call::Close, show, Call::Enter] {
                assert!(&rt; register.call(call).is_ok());
            }
        }
        assert_eq!(&rt; register.ask(0, 2).ok(), Some((4, 4, Verdict::Settled)));
    }
}
