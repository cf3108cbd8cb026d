//! The tournament in which the least of them stands on top.

ghost use Rattle.std.specs.Prelude.{◌≡◌, ◌<◌, ◌*◌, IsTrue, None, Some, ℕ, length, drop, slice_index_or, slice_set};
ghost use Rattle.std.specs.Int.{IsPowerOfTwo};
ghost use Rattle.held_timers.specs.Dues.{earlier, first_due_from, is_due};
ghost use Rattle.held_timers.specs.TournamentSteps.{BeginsAt, IsTournament};

/// The earlier of two due moments.
fn earlier(first: Option<u64>, second: Option<u64>) -> Option<u64>
    ensures earlier { result ≡ earlier first second }
{
    match (first, second) {
        (Some(first), Some(second)) => Some(first.min(second)),
        (Some(first), None) => Some(first),
        (None, second) => second,
    }
}

fn is_due(moment: u64, due: Option<u64>) -> bool
    ensures due { result ≡ is_due moment due }
{
    due.is_some_and(|due| due <= moment)
}

/// Puts a due moment at a leaf, and the winners above it.
pub fn replace(nodes: &mut [Option<u64>], leaves: usize, index: usize, due: Option<u64>)
    requires size { length nodes.old ≡ 2 * leaves }
    requires tournament { IsTournament nodes.old }
    requires within { index < leaves }
    ensures tournament { IsTournament nodes.new }
    ensures leaves { drop leaves nodes.new ≡ slice_set (drop leaves nodes.old) index due }
{
    let mut node = leaves + index;
    nodes[node] = due;
    while node > 1 {
        node /= 2;
        nodes[node] = earlier(nodes[2 * node], nodes[2 * node + 1]);
    }
}

/// The first leaf at or above an index whose moment isn't after a moment.
pub fn first_due(nodes: &[Option<u64>], leaves: usize, moment: u64, index: usize) -> Option<usize>
    requires size { length nodes.now ≡ 2 * leaves }
    requires tournament { IsTournament nodes.now }
    requires power { IsPowerOfTwo leaves }
    requires within { index < leaves }
    ensures first { result ≡ first_due_from (drop leaves nodes.now) moment index }
{
    let mut node = leaves + index;
    if is_due(moment, nodes[node]) {
        return Some(index);
    }
    while node > 1 {
        if node % 2 == 0 && is_due(moment, nodes[node + 1]) {
            return Some(first_due_below(nodes, leaves, moment, node + 1));
        }
        node /= 2;
    }
    None
}

/// The first leaf below a node that is due.
fn first_due_below(nodes: &[Option<u64>], leaves: usize, moment: u64, top: usize) -> usize
    requires size { length nodes.now ≡ 2 * leaves }
    requires tournament { IsTournament nodes.now }
    requires low { 0 < top }
    requires high { top < 2 * leaves }
    requires due { IsTrue (is_due moment (slice_index_or nodes.now top None)) }
    ensures first { (index : ℕ) → BeginsAt leaves top index → Some result ≡ first_due_from (drop leaves nodes.now) moment index }
{
    let mut node = top;
    while node < leaves {
        node *= 2;
        if !is_due(moment, nodes[node]) {
            node += 1;
        }
    }
    node - leaves
}
