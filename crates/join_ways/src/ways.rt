// The ways through a filter along output terms, each written as a rule.
ghost use Rattle.std.specs.Prelude.{◌≡◌, ◌+◌, ◌≤◌, [], ◌∷◌, map, length, take, drop};
ghost use Rattle.std.specs.List.{AllByRecursion};
ghost use Rattle.alphabet.specs.Model.{SoundGuard};
ghost use Rattle.table.specs.Table.{table_of};
ghost use Rattle.join_laws.specs.Lines.{lines_of};
ghost use Rattle.join_laws.specs.Ways.{ways as ways_from};
ghost use Rattle.join_ways.specs.Paths.{within, SoundSpan, along, raw_line, whole_line};
ghost use Rattle.join_ways.specs.Written.{Same};
ghost use Rattle.join_ways.specs.Added.{Adds, lines};

pub use crate::course::Course;
use crate::slice_vec::SliceVec;
use crate::write::{MOST_AT_ONCE, Span, TooLarge, write_along};
use alphabet::Alphabet;
use table::Rule;

// Writes a complete way as a rule to a state, with its outputs.
fn add_rule<A: Alphabet>(
    course: &Course<'_, A>,
    path: &[Span],
    state: u16,
    guard: A::Guard,
    rules: &mut SliceVec<'_, Rule<A::Guard>>,
    outputs: &mut SliceVec<'_, A::Term>,
) -> Result<(), TooLarge>
    requires path { length path.now ≡ length course.now.terms.now }
    requires spans { AllByRecursion (SoundSpan A.model course.now.second.now.draft.outputs.now) path.now }
    ensures adds { Adds (whole_line course.now.number (along A.model course.now.terms.now (map (within course.now.second.now.draft.outputs.now) path.now)) state guard ∷ []) (lines rules.old outputs.old) (lines rules.new outputs.new) result }
    ensures same_rules { Same rules.old rules.new }
    ensures same_outputs { Same outputs.old outputs.new }
{
    let second = course.second;
    let before = outputs.count;
    write_along::<A>(course.terms, second.draft.outputs, path, &mut *outputs)?;
    let count = outputs.count - before;
    if count > MOST_AT_ONCE {
        return Err(TooLarge);
    }
    rules.push(Rule {
        state: course.number,
        next: state,
        outputs: count as u16,
        guard,
    })
}

// Writes all ways from a state that hold symbols of a guard, on the terms from a depth on. The path has, for each term
// before, where the outputs of the rule stand that took it.
pub fn add_ways<A: Alphabet>(
    course: &Course<'_, A>,
    depth: usize,
    state: u16,
    guard: A::Guard,
    path: &mut [Span],
    rules: &mut SliceVec<'_, Rule<A::Guard>>,
    outputs: &mut SliceVec<'_, A::Term>,
) -> Result<(), TooLarge>
    requires depth { depth ≤ length course.now.terms.now }
    requires path { length course.now.terms.now ≤ length path.old }
    requires spans { AllByRecursion (SoundSpan A.model course.now.second.now.draft.outputs.now) (take depth path.old) }
    requires guard { SoundGuard A.model guard }
    ensures adds { Adds (map (raw_line course.now.number (along A.model (take depth course.now.terms.now) (map (within course.now.second.now.draft.outputs.now) (take depth path.old)))) (ways_from A.model (lines_of (table_of course.now.second.now.draft)) (drop depth course.now.terms.now) state guard)) (lines rules.old outputs.old) (lines rules.new outputs.new) result }
    ensures same_rules { Same rules.old rules.new }
    ensures same_outputs { Same outputs.old outputs.new }
    ensures keeps { take depth path.new ≡ take depth path.old }
{
    if depth >= course.terms.len() {
        return add_rule(course, &path[0..depth], state, guard, rules, outputs);
    }
    let second = course.second;
    let term = course.terms[depth];
    let mut start = course.first;
    for rule in second.draft.rules {
        let from = start;
        start = from + rule.outputs as usize;
        if rule.state == state {
            let Some(narrower) = A::narrowed(guard, term, rule.guard) else {
                continue;
            };
            path[depth] = Span { from, to: start };
            add_ways(
                course,
                depth + 1,
                rule.next,
                narrower,
                &mut *path,
                &mut *rules,
                &mut *outputs,
            )?;
        }
    }
    Ok(())
}
