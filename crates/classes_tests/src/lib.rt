// Tests of the symbols that are worth trying at the states of two filters over bytes.
#![tactic(auto)]

#[cfg(test)]
mod tests {
    use classes::{Standing, next_symbol};
    use ranges::{Bytes, Range, RangeTerm};
    use std::process::Abort;
    use std::test::Fail;
    use table::{Draft, Filter, Rule, State};

    const STATES: [State; 1] = [State { mark: 1, finals: 0 }];

    const COPIES: [RangeTerm; 3] = [
        RangeTerm::Shift(0),
        RangeTerm::Shift(0),
        RangeTerm::Shift(0),
    ];

    const START: Option<u16> = Some(0);

    const DEAD: Option<u16> = None;

    // A rule of the only state, which copies what it reads.
    fn copy(low: u32, high: u32) -> Rule<Range> {
        Rule {
            state: 0,
            next: 0,
            outputs: 1,
            guard: Range { low, high },
        }
    }

    // Whether exactly the symbols of `tried` are tried.
    fn tries_at(
        rt: &impl Abort,
        left: &Draft<'_, Bytes>,
        right: &Draft<'_, Bytes>,
        left_state: Option<u16>,
        right_state: Option<u16>,
        tried: &[u32],
    ) -> Result<(), Fail> {
        let left = Standing {
            filter: &Filter::new(*left)?,
            state: left_state,
        };
        let right = Standing {
            filter: &Filter::new(*right)?,
            state: right_state,
        };
        let mut from = 0;
        for symbol in tried {
            let next = next_symbol(&left, &right, from);
            assert_eq!(rt; next, Some(*symbol));
            from = symbol.saturating_add(1);
        }
        assert_eq!(rt; next_symbol(&left, &right, from), None);
        Ok(())
    }

    // The same of the filters with these rules, at most three each.
    fn tries(
        rt: &impl Abort,
        left: &[Rule<Range>],
        right: &[Rule<Range>],
        left_state: Option<u16>,
        right_state: Option<u16>,
        tried: &[u32],
    ) -> Result<(), Fail> {
        assert!(rt; left.len() <= 3 && right.len() <= 3);
        let left = Draft::<Bytes> {
            states: &STATES,
            rules: left,
            outputs: &COPIES[0..left.len()],
        };
        let right = Draft::<Bytes> {
            states: &STATES,
            rules: right,
            outputs: &COPIES[0..right.len()],
        };
        let answer = tries_at(rt, &left, &right, left_state, right_state, tried);
        let Draft {
            states: _,
            rules: _,
            outputs: _,
        } = left;
        let Draft {
            states: _,
            rules: _,
            outputs: _,
        } = right;
        answer
    }

    #[test]
    fn two_symbols_of_each_run(rt: HostRuntime) -> Result<(), Fail> {
        let two = [copy(0x61, 0x62)];
        let all = [copy(0, 255)];
        tries(
            &rt,
            &two,
            &all,
            START,
            START,
            &[0, 1, 0x61, 0x62, 0x63, 0x64],
        )?;
        tries(
            &rt,
            &all,
            &two,
            START,
            START,
            &[0, 1, 0x61, 0x62, 0x63, 0x64],
        )?;
        tries(&rt, &all, &all, START, START, &[0, 1])
    }

    #[test]
    fn dead_sides_have_no_rules(rt: HostRuntime) -> Result<(), Fail> {
        let two = [copy(0x61, 0x62)];
        let all = [copy(0, 255)];
        tries(&rt, &two, &all, DEAD, START, &[0, 1])?;
        tries(&rt, &two, &all, START, DEAD, &[0x61, 0x62])?;
        tries(&rt, &two, &all, DEAD, DEAD, &[])?;
        tries(&rt, &two, &all, Some(1), Some(2), &[])
    }

    #[test]
    fn gaps_are_passed(rt: HostRuntime) -> Result<(), Fail> {
        let some = [copy(10, 19), copy(200, 255), copy(30, 30)];
        let others = [copy(15, 40), copy(0, 0)];
        tries(
            &rt,
            &some,
            &others,
            START,
            START,
            &[0, 10, 11, 15, 16, 20, 21, 30, 31, 32, 200, 201],
        )?;
        tries(&rt, &[], &[], START, START, &[])
    }
}
