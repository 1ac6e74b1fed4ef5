// Items in groups, each with a label, and for each item the first that is like it: in the same group, with the same label. The items
// of a group are chained from the last to the first, and along the chain a table keeps, for each label, the item that was met last.
// Each item is met three times, whatever the numbers are. An item k is chained as k + 1, and 0 ends a chain: nothing is allocated, so
// a chain is links in a table that is lent.
#![tactic(auto)]

ghost use Rattle.std.specs.Prelude.{ℕ, ◌≤◌, ◌<◌, ◌≡◌, length, get_or};
ghost use Rattle.alike.specs.Internal.Alike.{bound, Firsts, Keyed, Ready, Chain, Marked, Told};

pub mod numbers;

// Every group, every label and every item is below this number.
pub const BOUND: usize = 4096;

// For each item the first that is like it.
pub fn find_firsts(groups: &[u32], labels: &[u32], first: &mut [u32])
    requires { Keyed groups.now labels.now × (length groups.now ≤ length first.old) }
    ensures { Firsts groups.now labels.now first.new }
{
    let mut heads = [0u32; BOUND];
    let mut before = [0u32; BOUND];
    chain(groups, labels, &mut heads, &mut before);
    let mut marks = [0u32; BOUND];
    tell_groups(groups, labels, &heads, &before, &mut marks, first);
}

// Each item goes in front of its group's chain.
pub fn chain(groups: &[u32], labels: &[u32], heads: &mut [u32], before: &mut [u32])
    requires keyed { Keyed groups.now labels.now × (length heads.old ≡ bound) × (length groups.now ≤ length before.old) }
    requires by_index { (g : ℕ) → g < length heads.old → get_or heads.old g 0 ≡ 0 }
    ensures { Ready groups.now labels.now heads.new before.new }
{
    for item in 0..groups.len() {
        let group = groups[item] as usize;
        before[item] = heads[group];
        heads[group] = (item + 1) as u32;
    }
}

// One group after the other.
fn tell_groups(
    groups: &[u32],
    labels: &[u32],
    heads: &[u32],
    before: &[u32],
    marks: &mut [u32],
    first: &mut [u32],
)
    requires ready { Ready groups.now labels.now heads.now before.now }
    requires bound_in_bounds { (bound ≤ length marks.old) × (length groups.now ≤ length first.old) }
    ensures { Firsts groups.now labels.now first.new }
{
    for group in 0..heads.len() {
        let head = heads[group] as usize;
        mark(groups, labels, before, group, head, marks);
        tell(groups, labels, before, group, head, marks, first);
    }
}

// A chain falls, so of each label the item that is marked last is the group's first.
pub fn mark(
    groups: &[u32],
    labels: &[u32],
    before: &[u32],
    group: usize,
    head: usize,
    marks: &mut [u32],
)
    requires { Chain groups.now labels.now before.now group head × (bound ≤ length marks.old) }
    ensures { Marked groups.now labels.now group marks.new }
{
    // A walk along links, which no range counts. `mark` and `tell` differ in what a turn writes, and so in what they promise.
    let mut end = head;
    while end != 0 {
        let item = end - 1;
        let label = labels[item] as usize;
        marks[label] = item as u32;
        end = before[item] as usize;
    }
}

// Each item of a group takes what is marked for its label.
fn tell(
    groups: &[u32],
    labels: &[u32],
    before: &[u32],
    group: usize,
    head: usize,
    marks: &[u32],
    first: &mut [u32],
)
    requires chain { Chain groups.now labels.now before.now group head × Marked groups.now labels.now group marks.now }
    requires bound_in_bounds { (bound ≤ length marks.now) × (length groups.now ≤ length first.old) }
    ensures { Told groups.now labels.now group first.old first.new }
{
    // A walk along links, which no range counts.
    let mut end = head;
    while end != 0 {
        let item = end - 1;
        let label = labels[item] as usize;
        first[item] = marks[label];
        end = before[item] as usize;
    }
}
