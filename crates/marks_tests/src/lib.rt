// Tests of the alphabet of marks and of the characters that marks are printed as.
#![tactic(auto)]

ghost use Rattle.std.specs.Prelude.{◌≡◌};
ghost use Rattle.mark_laws.specs.declared.MarkTerm.TheVariants.{Turn};

#[cfg(test)]
mod tests {
    use alphabet::{Alphabet, Cause};
    use marks::{MarkSet, MarkTerm, Marks, letter, mark_of};
    use std::test::Fail;

    const ALL: MarkSet = MarkSet {
        bits: 0x1f_ffff_ffff,
    };

    const DIGITS: MarkSet = MarkSet { bits: 0x3ff };

    const ENDS: MarkSet = MarkSet {
        bits: 0x10_0000_0001,
    };

    const DOUBLED: MarkTerm = MarkTerm::Turn {
        factor: 2,
        offset: 1,
    };

    const HALVED: MarkTerm = MarkTerm::Turn {
        factor: 19,
        offset: 18,
    };

    // A turn, written short.
    fn turn(factor: u32, offset: u32) -> MarkTerm
        ensures { result ≡ Turn factor offset }
    {
        MarkTerm::Turn { factor, offset }
    }

    #[test]
    fn guards_are_checked(rt: HostRuntime) {
        assert_eq!(rt;
            Marks::check_guard(MarkSet { bits: 0 }),
            Err(Cause::NoSymbols)
        );
        assert_eq!(rt;
            Marks::check_guard(MarkSet { bits: 1 << 37 }),
            Err(Cause::BeyondSize)
        );
        assert_eq!(rt;
            Marks::check_guard(MarkSet { bits: u64::MAX }),
            Err(Cause::BeyondSize)
        );
        assert_eq!(rt; Marks::check_guard(ALL), Ok(()));
    }

    #[test]
    fn terms_are_checked(rt: HostRuntime) {
        let outside = Err(Cause::OutOfBounds);
        assert_eq!(rt; Marks::check_term(MarkTerm::Constant(36)), Ok(()));
        assert_eq!(rt; Marks::check_term(MarkTerm::Constant(37)), outside);
        assert_eq!(rt; Marks::check_term(turn(36, 36)), Ok(()));
        assert_eq!(rt; Marks::check_term(turn(0, 5)), outside);
        assert_eq!(rt; Marks::check_term(turn(37, 5)), outside);
        assert_eq!(rt; Marks::check_term(turn(5, 37)), outside);
        assert_eq!(rt; Marks::check_term(turn(u32::MAX, u32::MAX)), outside);
    }

    #[test]
    fn guards_hold_marks(rt: HostRuntime) {
        assert!(rt; Marks::holds(DIGITS, 9));
        assert!(rt; !Marks::holds(DIGITS, 10));
        assert!(rt; Marks::holds(ALL, 36));
        assert!(rt; !Marks::holds(ALL, 37));
        assert!(rt; !Marks::holds(ALL, 65536));
        assert_eq!(rt; Marks::first_inside(ENDS, 1), Some(36));
        assert_eq!(rt; Marks::first_inside(DIGITS, 10), None);
        assert_eq!(rt; Marks::first_inside(ALL, 65536), None);
        assert_eq!(rt; Marks::first_outside(DIGITS, 0), 10);
        assert_eq!(rt; Marks::first_outside(ALL, 3), 37);
        assert_eq!(rt; Marks::first_outside(ALL, 65536), 65536);
    }

    #[test]
    fn terms_have_values(rt: HostRuntime) {
        assert_eq!(rt; Marks::value(DOUBLED, 0), Some(1));
        assert_eq!(rt; Marks::value(DOUBLED, 18), Some(0));
        assert_eq!(rt; Marks::value(DOUBLED, 36), Some(36));
        assert_eq!(rt; Marks::value(DOUBLED, 37), None);
        assert_eq!(rt; Marks::value(DOUBLED, 65536), None);
        assert_eq!(rt; Marks::value(MarkTerm::Constant(7), 36), Some(7));
        assert_eq!(rt; Marks::value(MarkTerm::Constant(7), 37), None);
        assert!(rt; Marks::suits(DOUBLED, ALL));
    }

    #[test]
    fn turns_are_not_constant(rt: HostRuntime) {
        assert_eq!(rt; Marks::constant_value(Marks::constant(36)), Some(36));
        for factor in 1..37 {
            assert_eq!(rt; Marks::constant_value(turn(factor, 5)), None);
        }
    }

    #[test]
    fn terms_follow_terms(rt: HostRuntime) {
        let copying = turn(1, 0);
        let seven = MarkTerm::Constant(7);
        assert_eq!(rt; Marks::followed(DOUBLED, HALVED), Some(copying));
        assert_eq!(rt; Marks::followed(HALVED, DOUBLED), Some(copying));
        assert_eq!(rt;
            Marks::followed(seven, DOUBLED),
            Some(MarkTerm::Constant(15))
        );
        assert_eq!(rt; Marks::followed(DOUBLED, seven), Some(seven));
    }

    #[test]
    fn guards_are_narrowed(rt: HostRuntime) {
        let one = MarkSet { bits: 1 };
        assert_eq!(rt;
            Marks::narrowed(DIGITS, DOUBLED, DIGITS),
            Some(MarkSet { bits: 0x1f })
        );
        assert_eq!(rt;
            Marks::narrowed(ALL, DOUBLED, one),
            Some(MarkSet { bits: 1 << 18 })
        );
        assert_eq!(rt; Marks::narrowed(DIGITS, DOUBLED, one), None);
        assert_eq!(rt;
            Marks::narrowed(DIGITS, MarkTerm::Constant(0), one),
            Some(DIGITS)
        );
        assert_eq!(rt; Marks::narrowed(DIGITS, MarkTerm::Constant(1), one), None);
    }

    #[test]
    fn letters_round_trip(rt: HostRuntime) -> Result<(), Fail> {
        assert_eq!(rt; letter(0), Some(b'0'));
        assert_eq!(rt; letter(35), Some(b'Z'));
        assert_eq!(rt; letter(36), Some(b'*'));
        assert_eq!(rt; letter(37), None);
        assert_eq!(rt; letter(65536), None);
        assert_eq!(rt; mark_of(b'a'), None);
        assert_eq!(rt; mark_of(b' '), None);
        for mark in 0..37 {
            assert_eq!(rt; mark_of(letter(mark).ok_or("no character")?), Some(mark));
        }
        Ok(())
    }
}
