// The tree over a profile: its height, the search for the greatest margin there, and building.
ghost use Rattle.std.specs.Prelude.{◌≡◌, true, ◌≤◌, length};
ghost use Rattle.histogram.specs.Tree.{height};
ghost use Rattle.build.specs.Inner.{Searchable, MarginFound, MarginSolved, TreeFits, TreeBuilt};

use subtree::{count_terms, solve};
use trace::trace;

// The height of the tree over a number of slots: how often one leaf is doubled until each slot has one.
// Doubled by hand: `next_power_of_two`, `ilog2` and `trailing_zeros` make the library for the panel's core need a helper that it may not (firmware/symbols).
// The count has 8 bits, as a level has: with 32 some builds take more instructions.
pub fn height_over(slots: usize) -> u32
    requires { slots ≤ 512 }
    ensures { result ≡ height slots }
{
    let mut height: u8 = 0;
    let mut leaves = 1;
    while leaves < slots {
        leaves *= 2;
        height += 1;
    }
    u32::from(height)
}

// The tree over setpoints and the bands that they go by, and the value that comes in at its root.
// Its methods take it by value: the audit of the library's module (firmware/audit) knows no reference that a method hands on to another.
#[derive(Clone, Copy)]
pub struct Tree<'a> {
    pub setpoints: &'a [i16],
    pub bands: &'a [u16],
    pub value: u32,
    pub height: u32,
}

// The margin that a search found, and whether scratch is solved for it: there is a margin in both cases, so no `Option`.
#[derive(Clone, Copy)]
pub struct FoundMargin {
    pub margin: u32,
    pub solved: bool,
}

// What was built over a tree.
#[derive(Clone, Copy)]
pub struct TreeAnswer {
    pub count: usize,
    pub margin: u32,
}

impl Tree<'_> {
    // The greatest margin up to `top` for which the tree needs no more terms than the budget, by halving; `solved` says whether scratch is solved with no margin.
    // It halves a range of margins, and no slice, so no method of the library searches it.
    pub fn greatest_margin_within(
        self,
        budget: u32,
        top: u32,
        scratch: &mut [i16],
        mut solved: bool,
    ) -> FoundMargin
        requires { Searchable top self.height self.value budget solved self.setpoints.now self.bands.now scratch.old }
        ensures { MarginFound top self.entry.height self.entry.value budget self.entry.setpoints.now self.entry.bands.now scratch.old scratch.new result.margin result.solved }
    {
        let mut low = 0;
        let mut high = top;
        while low < high {
            let middle = high - (high - low) / 2;
            let count = count_terms(
                self.setpoints,
                self.bands,
                middle,
                self.value,
                scratch,
                self.height,
            );
            if count <= budget {
                low = middle;
                solved = true;
            } else {
                high = middle - 1;
                solved = false;
            }
        }
        FoundMargin {
            margin: low,
            solved,
        }
    }

    // The greatest margin up to `top` for which the tree needs no more terms than the budget; scratch, which is solved with no margin, is then solved for that one.
    fn solve_greatest_margin(self, budget: u32, top: u32, scratch: &mut [i16]) -> u32
        requires { Searchable top self.height self.value budget true self.setpoints.now self.bands.now scratch.old }
        ensures { MarginSolved top self.entry.height self.entry.value budget self.entry.setpoints.now self.entry.bands.now scratch.old scratch.new result }
    {
        let found = self.greatest_margin_within(budget, top, scratch, true);
        if !found.solved {
            solve(
                self.setpoints,
                self.bands,
                found.margin,
                scratch,
                self.height,
            );
        }
        found.margin
    }

    // Counts the terms for the bands, searches and solves for the greatest margin of as many, and traces the terms.
    pub fn build_tree(
        self,
        top: u32,
        nodes: &mut [u16],
        values: &mut [i16],
        scratch: &mut [i16],
    ) -> TreeAnswer
        requires { TreeFits top self.height self.value self.setpoints.now self.bands.now nodes.old values.old scratch.old }
        ensures { TreeBuilt top self.entry.height self.entry.value self.entry.setpoints.now self.entry.bands.now nodes.old nodes.new values.old values.new result.count result.margin
            × (length scratch.new ≡ length scratch.old) }
    {
        let budget = count_terms(
            self.setpoints,
            self.bands,
            0,
            self.value,
            scratch,
            self.height,
        );
        let margin = self.solve_greatest_margin(budget, top, scratch);
        let count = trace(scratch, self.height, self.value, nodes, values);
        TreeAnswer { count, margin }
    }
}
