// Transducing: outputs, rejections and refusals, and what they leave in the output.
use crate::samples::{ACCEPTS, COPY, REJECTS, rule, use_table};
use filter::{Outcome, TransduceFault};
use ranges::{Range, RangeTerm};
use std::test::Fail;
use table::{Rule, State, TableFault};

const AMPERSAND: [RangeTerm; 7] = [
    COPY,
    RangeTerm::Constant(0x26),
    RangeTerm::Constant(0x61),
    RangeTerm::Constant(0x6d),
    RangeTerm::Constant(0x70),
    RangeTerm::Constant(0x3b),
    COPY,
];

#[test]
fn an_ampersand_is_escaped(rt: HostRuntime) {
    let states = [ACCEPTS];
    let rules = [rule(0, 0x25, 1), rule(0x26, 0x26, 5), rule(0x27, 0xff, 1)];
    let mut out = [9; 8];
    let written = use_table(&states, &rules, &AMPERSAND, &[0x26, 0x41], &mut out);
    assert_eq!(rt; written, Ok(Outcome::Written { state: 0, count: 6 }));
    assert_eq!(rt; out, [0x26, 0x61, 0x6d, 0x70, 0x3b, 0x41, 9, 9]);
    let empty = use_table(&states, &rules, &AMPERSAND, &[], &mut out);
    assert_eq!(rt; empty, Ok(Outcome::Written { state: 0, count: 0 }));
    let mut short = [3; 4];
    let refused = use_table(&states, &rules, &AMPERSAND, &[0x26], &mut short);
    assert_eq!(rt; refused, Err(TransduceFault::ShortOutput(5)));
    assert_eq!(rt; short, [3; 4]);
    let beyond = use_table(&states, &rules, &AMPERSAND, &[0x41, 256], &mut out);
    assert_eq!(rt; beyond, Ok(Outcome::Rejected { position: 1 }));
    assert_eq!(rt; out, [0x26, 0x61, 0x6d, 0x70, 0x3b, 0x41, 9, 9]);
}

#[test]
fn a_rejection_needs_no_output(rt: HostRuntime) {
    let open = Rule {
        state: 0,
        next: 1,
        outputs: 1,
        guard: Range {
            low: 0x61,
            high: 0x61,
        },
    };
    let states = [ACCEPTS, REJECTS];
    let rules = [open];
    let outputs = [COPY];
    let at_end = use_table(&states, &rules, &outputs, &[0x61], &mut []);
    assert_eq!(rt; at_end, Ok(Outcome::Rejected { position: 1 }));
    let behind = use_table(&states, &rules, &outputs, &[0x61, 0x61], &mut []);
    assert_eq!(rt; behind, Ok(Outcome::Rejected { position: 1 }));
    let at_once = use_table(&states, &rules, &outputs, &[0x62], &mut []);
    assert_eq!(rt; at_once, Ok(Outcome::Rejected { position: 0 }));
}

#[test]
fn final_outputs_follow(rt: HostRuntime) {
    let states = [State { mark: 1, finals: 2 }];
    let rules = [rule(0x61, 0x61, 32)];
    let mut outputs = [COPY; 34];
    outputs[0] = RangeTerm::Constant(0x21);
    outputs[1] = RangeTerm::Constant(0x3f);
    let mut out = [0; 35];
    let written = use_table(&states, &rules, &outputs, &[0x61], &mut out);
    assert_eq!(rt;
        written,
        Ok(Outcome::Written {
            state: 0,
            count: 34,
        })
    );
    assert_eq!(rt;
        [out[0], out[31], out[32], out[33], out[34]],
        [0x61, 0x61, 0x21, 0x3f, 0]
    );
    let refused = use_table(&states, &rules, &outputs, &[0x61], &mut [0; 33]);
    assert_eq!(rt; refused, Err(TransduceFault::ShortOutput(34)));
}

#[test]
fn long_texts_are_refused(rt: HostRuntime) -> Result<(), Fail> {
    let states = [ACCEPTS];
    let rules = [rule(0, 255, 0)];
    let long = vec![in rt.alloc(); 0u32; 1048577]?;
    let refused = use_table(&states, &rules, &[], long.as_slice(), &mut []);
    assert_eq!(rt; refused, Err(TransduceFault::LongText));
    let most = vec![in rt.alloc(); 0u32; 1048576]?;
    let written = use_table(&states, &rules, &[], most.as_slice(), &mut []);
    assert_eq!(rt; written, Ok(Outcome::Written { state: 0, count: 0 }));
    Ok(())
}

#[test]
fn unsound_tables_are_refused(rt: HostRuntime) {
    let states = [ACCEPTS];
    let rules = [rule(0, 1, 0), rule(1, 2, 0)];
    let fault = TransduceFault::Unsound(TableFault::Overlap(1));
    assert_eq!(rt; use_table(&states, &rules, &[], &[0], &mut []), Err(fault));
    assert_eq!(rt; fault.code().number, 11);
    assert_eq!(rt; TransduceFault::LongText.code().place, 1);
    assert_eq!(rt; TransduceFault::ShortOutput(5).code().number, 16);
}
