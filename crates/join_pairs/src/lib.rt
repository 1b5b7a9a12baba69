// Pairs of states: they wait in a queue, and get their numbers as they are first met.
#![tactic(auto)]

ghost use Rattle.std.specs.Prelude.{◌≡◌, ◌≤◌, length};
ghost use Rattle.queue.specs.Held.{entries, room};
ghost use Rattle.join_pairs.specs.Meets.{known, Meets, Numbers};

pub use join_laws::Pair;
use join_ways::TooLarge;
use queue::Queue;
use table::Rule;

// The number of a pair, or none where it was not met yet.
fn place_of(pairs: &[Pair], pair: Pair) -> Option<usize>
    ensures { result ≡ known pairs.now pair }
{
    pairs.iter().position(|other| *other == pair)
}

// Meets a pair: answers its number, a new one at the end of the queue where it had none.
pub fn meet(queue: &mut Queue<'_, Pair>, pair: Pair) -> Result<usize, TooLarge>
    ensures meets { Meets (entries queue.old) pair (room queue.old) (entries queue.new) result }
    ensures taken { queue.new.taken ≡ queue.old.taken }
    ensures room { room queue.new ≡ room queue.old }
{
    if let Some(number) = place_of(queue.entries(), pair) {
        return Ok(number);
    }
    let new = queue.push(pair)?;
    Ok(new)
}

// Meets the pairs that rules lead to, where the first filter goes to a state, and gives the rules their numbers.
pub fn number_targets<G: Copy>(
    queue: &mut Queue<'_, Pair>,
    first: u16,
    rules: &mut [Rule<G>],
) -> Result<(), TooLarge>
    requires { room queue.old ≤ 65536 }
    ensures numbers { Numbers first (entries queue.old) (room queue.old) rules.old (entries queue.new) rules.new result }
    ensures taken { queue.new.taken ≡ queue.old.taken }
    ensures room { room queue.new ≡ room queue.old }
{
    for rule in rules.iter_mut() {
        rule.next = meet(queue, (first, rule.next))? as u16;
    }
    Ok(())
}
