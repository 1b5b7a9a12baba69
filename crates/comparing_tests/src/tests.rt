// The earliest distinguishing texts of pairs of filters.
use crate::samples;
use alphabet::Alphabet;
use builtin::bytes::escape;
use comparing::compare_drafts;
use std::alloc::Global;
use table::Draft;

// Whether comparing gives this text, or none.
fn gives<A: Alphabet>(
    heap: Global,
    first: &Draft<'_, A>,
    second: &Draft<'_, A>,
    text: Option<&[u32]>,
) -> bool {
    match (compare_drafts(heap, first, second), text) {
        (Ok(None), None) => true,
        (Ok(Some(found)), Some(text)) => found.as_slice() == text,
        _ => false,
    }
}

#[test]
fn one_state_filters(rt: HostRuntime) {
    let heap = rt.alloc();
    let copy = samples::copy();
    assert!(rt; gives(heap, &escape(), &copy, Some(&[0x26])));
    assert!(rt; gives(heap, &copy, &escape(), Some(&[0x26])));
    assert!(rt; gives(heap, &copy, &copy, None));
    assert!(rt; gives(heap, &copy, &samples::copy_in_halves(), None));
    assert!(rt; gives(heap, &samples::copy_and_close(), &copy, Some(&[])));
}

#[test]
fn second_symbols_and_second_visits(rt: HostRuntime) {
    let heap = rt.alloc();
    assert!(rt;
        gives(
            heap,
            &samples::one_for_both(),
            &samples::copy_letters(),
            Some(&[0x62]),
        )
    );
    assert!(rt;
        gives(
            heap,
            &samples::crosses_twice(),
            &samples::crosses_once(),
            Some(&[0x62, 0x63]),
        )
    );
}

#[test]
fn delays_and_rejections(rt: HostRuntime) {
    let heap = rt.alloc();
    assert!(rt;
        gives(
            heap,
            &samples::grows_by_one(),
            &samples::grows_by_two(),
            Some(&[0x61, 0x62]),
        )
    );
    assert!(rt;
        gives(
            heap,
            &samples::copy_letter(),
            &samples::delayed_letter(),
            None,
        )
    );
    assert!(rt;
        gives(
            heap,
            &samples::rejects_all(),
            &samples::rejects_at_once(),
            None,
        )
    );
    assert!(rt; gives(heap, &samples::rejects_all(), &samples::copy(), Some(&[])));
    assert!(rt; gives(heap, &samples::copy_letter(), &samples::copy(), Some(&[0])));
}

#[test]
fn marks_compare(rt: HostRuntime) {
    let heap = rt.alloc();
    assert!(rt;
        gives(
            heap,
            &samples::copy_marks(),
            &samples::copy_digits_apart(),
            None,
        )
    );
    assert!(rt;
        gives(
            heap,
            &samples::copy_marks(),
            &samples::turn_marks(),
            Some(&[0]),
        )
    );
}
