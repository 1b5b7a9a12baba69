// Filters over shelf marks.
ghost use Rattle.std.specs.Prelude.{◌≡◌};
ghost use Rattle.table.specs.Table.{table_of};
ghost use Rattle.builtin.specs.ShelfMarks.{public_table};

use mark_laws::{MarkSet, MarkTerm};
use marks::Marks;
use table::{Draft, Rule, State};

// State 1 is behind the star.
static PUBLIC_STATES: [State; 2] = [State { mark: 1, finals: 0 }, State { mark: 1, finals: 0 }];

static PUBLIC_RULES: [Rule<MarkSet>; 3] = [
    Rule {
        state: 0,
        next: 0,
        outputs: 1,
        guard: MarkSet {
            bits: 0x0f_ffff_ffff,
        },
    },
    Rule {
        state: 0,
        next: 1,
        outputs: 0,
        guard: MarkSet {
            bits: 0x10_0000_0000,
        },
    },
    Rule {
        state: 1,
        next: 1,
        outputs: 0,
        guard: MarkSet {
            bits: 0x1f_ffff_ffff,
        },
    },
];

static PUBLIC_OUTPUTS: [MarkTerm; 1] = [MarkTerm::Turn {
    factor: 1,
    offset: 0,
}];

// Copies digits and letters up to the first star, and drops the star and all behind it, which is for the house alone.
pub fn public_form() -> Draft<'static, Marks>
    ensures { table_of result ≡ public_table }
{
    Draft {
        states: &PUBLIC_STATES,
        rules: &PUBLIC_RULES,
        outputs: &PUBLIC_OUTPUTS,
    }
}
