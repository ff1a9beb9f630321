ghost use Rattle.std.specs.Prelude.{◌≡◌, ◌≢◌, ℕ, ◌+◌, ◌<◌, ◌≤◌, ◌^◌, List, [], ◌∷◌, length, replicate, reverse, sum_by, slice_set, option_to_list, ◌++◌, IfOk, OnOk, MatchOption};
ghost use Rattle.std.specs.List.{AllByRecursion};
ghost use Rattle.cell_walk.specs.declared.walking.Progress.{Progress};
ghost use Rattle.cell_walk.specs.Walks.{at_start, cells_from, interval_cells, IsIn, hue, weight, is_ordered, is_white, Holds, MayBegin, IsFound, MentionsWithin, Opens, IsMarked};
ghost use Rattle.cell_walk.specs.Skips.{MaySkip};

use std::alloc::{AllocError, Global};

/// Cells with consecutive numbers, as a part of what a cell mentions.
#[derive(Clone, Copy, Debug)]
pub struct Interval {
    /// The first of them.
    pub first: u32,
    /// The number behind the last one.
    pub end: u32,
}

/// Cells under numbers from 0 on, and what each of them mentions. It is gone through by a cursor, run
/// by run, so that no list of it need be kept.
pub trait Mentions {
    /// The cells that a cell mentions.
    ghost mentions: { Self → ℕ → List ℕ };

    /// Those that are left from a place on.
    ghost rest: { Self → ℕ → Progress → List ℕ };

    /// The next run of cells that a cell mentions from a place on, and the place behind it. `None`
    /// exactly where no cell is left.
    fn next(&self, cell: u32, place: Progress) -> Option<(Interval, Progress)>
        ensures { MatchOption result (rest self.now cell place ≡ []) (λ p. (p.0.first < p.0.end) × (rest self.now cell place ≡ interval_cells p.0 ++ rest self.now cell p.1)) };

    /// From the start on all are left.
    ghost from_start: { (s : Self) (cell : ℕ) → rest s cell at_start ≡ mentions s cell };
}

/// How far one has gone through what a cell mentions: the number of the reference, and the row and
/// the column inside it. The start is three zeros; what else they mean, the graph alone knows.
#[derive(Clone, Copy, Debug)]
pub struct Progress {
    pub reference: usize,
    pub row: u32,
    pub col: u32,
}

/// What is known of a cell.
#[derive(Clone, Copy, Debug)]
pub enum Colour {
    /// Nothing yet.
    White,
    /// It is on the stack.
    Grey,
    /// It has its place in the order.
    Ordered,
    /// It is circular.
    Circular,
}

/// What a walk found: the colour of each cell, and the cells that were new and aren't circular, each
/// behind all that it mentions.
#[derive(Debug, Drop)]
pub struct Found {
    pub colours: Vec<Colour>,
    pub order: Vec<u32>,
}

/// A cell on the stack, and how far its mentions were gone through.
#[derive(Clone, Copy, Debug)]
struct Entry {
    cell: u32,
    place: Progress,
}

/// Whether a cell has its place in the order.
fn has_place(colours: &[Colour], cell: u32) -> bool
    requires { cell < length colours.now }
    ensures { result ≡ is_ordered (hue colours.now cell) }
{
    matches!(colours[cell as usize], Colour::Ordered)
}

/// Whether nothing is known of a cell yet.
fn is_new(colours: &[Colour], cell: u32) -> bool
    requires { cell < length colours.now }
    ensures { result ≡ is_white (hue colours.now cell) }
{
    matches!(colours[cell as usize], Colour::White)
}

/// The cell to go on with from one that is in order. Where all up to a later one is known to be in
/// order too, that one is noted, so that paths become short (path halving, as in Tarjan's and van
/// Leeuwen's disjoint sets).
fn skip(after: &mut [u32], colours: &[Colour], cell: u32) -> u32
    requires skips { MaySkip colours.now after.old }
    requires cell { cell < length colours.now }
    ensures skips { MaySkip colours.now after.new }
    ensures ahead { cell < result }
    ensures passed { (c : ℕ) → cell < c → c < result → hue colours.now c ≡ Colour.Ordered }
{
    let next = after[cell as usize];
    if (next as usize) < colours.len() && has_place(colours, next) {
        let further = after[next as usize];
        after[cell as usize] = further;
        further
    } else {
        next
    }
}

/// The first cell of a run that isn't in order, or one behind the run. Cells that are in order are
/// skipped many at a time: over a whole walk a run costs about a logarithm, however long it is.
fn first_open(after: &mut [u32], colours: &[Colour], run: Interval) -> u32
    requires skips { MaySkip colours.now after.old }
    requires within { run.end ≤ length colours.now }
    ensures skips { MaySkip colours.now after.new }
    ensures from { run.first ≤ result }
    ensures passed { (c : ℕ) → run.first ≤ c → c < result → hue colours.now c ≡ Colour.Ordered }
    ensures open { result < run.end → hue colours.now result ≢ Colour.Ordered }
{
    let mut at = run.first;
    while at < run.end && has_place(colours, at) {
        at = skip(after, colours, at);
    }
    at
}

/// The first mention from a place on that isn't in order, and a place before it.
fn next_open<G: Mentions>(
    graph: &G,
    cell: u32,
    from: Progress,
    colours: &[Colour],
    after: &mut [u32],
) -> (Progress, Option<u32>)
    requires within { (d : ℕ) → IsIn d (G.rest graph.now cell from) → d < length colours.now }
    requires skips { MaySkip colours.now after.old }
    ensures opens { Opens (G.rest graph.now cell) (hue colours.now) from result.0 result.1 }
    ensures skips { MaySkip colours.now after.new }
{
    let mut place = from;
    while let Some((run, behind)) = graph.next(cell, place) {
        let open = first_open(after, colours, run);
        if open < run.end {
            return (place, Some(open));
        }
        place = behind;
    }
    (place, None)
}

/// Marks each cell of a stack as circular.
fn mark_all(colours: &mut [Colour], stack: &[Entry])
    requires { AllByRecursion (λ e. e.cell < length colours.old) stack.now }
    ensures { IsMarked colours.old colours.new stack.now }
{
    for e in stack {
        colours[e.cell as usize] = Colour::Circular;
    }
}

/// A walk under way. The end of the stack is its top.
#[derive(Debug, Drop)]
struct Walk {
    colours: Vec<Colour>,
    order: Vec<u32>,
    stack: Vec<Entry>,
    // for each cell one behind it: those in between are in order
    after: Vec<u32>,
}

impl Walk {
    /// The uppermost cell, whose mentions are all in order, takes its place in the order.
    fn finish(&mut self, cell: u32) -> Result<(), AllocError>
        requires { cell < length self.old.colours.items }
        ensures colours { OnOk result (self.new.colours.items ≡ slice_set self.old.colours.items cell Colour.Ordered) }
        ensures order { OnOk result (self.new.order.items ≡ self.old.order.items ++ cell ∷ []) }
        ensures stack { OnOk result (self.new.stack.items ≡ self.old.stack.items) }
        ensures after { OnOk result (self.new.after.items ≡ self.old.after.items) }
    {
        self.order.push(cell)?;
        self.colours[cell as usize] = Colour::Ordered;
        Ok(())
    }

    /// A white cell comes onto the stack, above what was there.
    fn descend(&mut self, below: Option<Entry>, cell: u32) -> Result<(), AllocError>
        requires { cell < length self.old.colours.items }
        ensures colours { OnOk result (self.new.colours.items ≡ slice_set self.old.colours.items cell Colour.Grey) }
        ensures order { OnOk result (self.new.order.items ≡ self.old.order.items) }
        ensures stack { OnOk result (self.new.stack.items ≡ self.old.stack.items ++ option_to_list below ++ record { cell = cell; place = at_start } ∷ []) }
        ensures after { OnOk result (self.new.after.items ≡ self.old.after.items) }
    {
        if let Some(entry) = below {
            self.stack.push(entry)?;
        }
        self.stack.push(Entry {
            cell,
            place: Progress {
                reference: 0,
                row: 0,
                col: 0,
            },
        })?;
        self.colours[cell as usize] = Colour::Grey;
        Ok(())
    }

    /// The uppermost cell leads into a cycle, and with it all that is on the stack.
    fn give_up(&mut self, cell: u32)
        requires cell { cell < length self.old.colours.items }
        requires stack { AllByRecursion (λ e. e.cell < length self.old.colours.items) self.old.stack.items }
        ensures colours { IsMarked (slice_set self.old.colours.items cell Colour.Circular) self.new.colours.items self.old.stack.items }
        ensures order { self.new.order.items ≡ self.old.order.items }
        ensures stack { self.new.stack.items ≡ [] }
        ensures after { self.new.after.items ≡ self.old.after.items }
    {
        self.colours[cell as usize] = Colour::Circular;
        mark_all(&mut self.colours, &self.stack);
        self.stack.clear();
    }

    /// One turn with the uppermost cell, which was taken off the stack.
    fn turn<G: Mentions>(&mut self, graph: &G, top: Entry) -> Result<(), AllocError>
        requires within { MentionsWithin (length self.old.colours.items) (G.mentions graph.now) }
        requires holds { (first : ℕ → Colour) × Holds (G.mentions graph.now) (G.rest graph.now) first (hue self.old.colours.items) (reverse self.old.order.items) (top ∷ reverse self.old.stack.items) }
        requires skips { MaySkip self.old.colours.items self.old.after.items }
        ensures len { OnOk result (length self.new.colours.items ≡ length self.old.colours.items) }
        ensures holds { OnOk result ((first : ℕ → Colour) → Holds (G.mentions graph.now) (G.rest graph.now) first (hue self.old.colours.items) (reverse self.old.order.items) (top ∷ reverse self.old.stack.items) →
            Holds (G.mentions graph.now) (G.rest graph.now) first (hue self.new.colours.items) (reverse self.new.order.items) (reverse self.new.stack.items)) }
        ensures skips { OnOk result (MaySkip self.new.colours.items self.new.after.items) }
        ensures less { OnOk result (sum_by weight self.new.colours.items < sum_by weight self.old.colours.items) }
        ensures seen { OnOk result ((c : ℕ) → hue self.old.colours.items c ≢ Colour.White → hue self.new.colours.items c ≢ Colour.White) }
    {
        let (place, open) = next_open(graph, top.cell, top.place, &self.colours, &mut self.after);
        match open {
            None => self.finish(top.cell),
            Some(d) => {
                if is_new(&self.colours, d) {
                    let below = Entry {
                        cell: top.cell,
                        place,
                    };
                    self.descend(Some(below), d)
                } else {
                    self.give_up(top.cell);
                    Ok(())
                }
            }
        }
    }

    /// Turns until nothing is on the stack.
    fn follow<G: Mentions>(&mut self, graph: &G) -> Result<(), AllocError>
        requires within { MentionsWithin (length self.old.colours.items) (G.mentions graph.now) }
        requires holds { (first : ℕ → Colour) × Holds (G.mentions graph.now) (G.rest graph.now) first (hue self.old.colours.items) (reverse self.old.order.items) (reverse self.old.stack.items) }
        requires skips { MaySkip self.old.colours.items self.old.after.items }
        ensures len { OnOk result (length self.new.colours.items ≡ length self.old.colours.items) }
        ensures skips { OnOk result (MaySkip self.new.colours.items self.new.after.items) }
        ensures empty { OnOk result (self.new.stack.items ≡ []) }
        ensures holds { OnOk result ((first : ℕ → Colour) → Holds (G.mentions graph.now) (G.rest graph.now) first (hue self.old.colours.items) (reverse self.old.order.items) (reverse self.old.stack.items) →
            Holds (G.mentions graph.now) (G.rest graph.now) first (hue self.new.colours.items) (reverse self.new.order.items) []) }
        ensures seen { OnOk result ((c : ℕ) → hue self.old.colours.items c ≢ Colour.White → hue self.new.colours.items c ≢ Colour.White) }
    {
        while let Some(top) = self.stack.pop() {
            self.turn(graph, top)?;
        }
        Ok(())
    }

    /// A cell, if nothing is known of it yet, and all that it leads to.
    fn visit<G: Mentions>(&mut self, graph: &G, cell: u32) -> Result<(), AllocError>
        requires cell { cell < length self.old.colours.items }
        requires within { MentionsWithin (length self.old.colours.items) (G.mentions graph.now) }
        requires empty { self.old.stack.items ≡ [] }
        requires holds { (first : ℕ → Colour) × Holds (G.mentions graph.now) (G.rest graph.now) first (hue self.old.colours.items) (reverse self.old.order.items) [] }
        requires skips { MaySkip self.old.colours.items self.old.after.items }
        ensures len { OnOk result (length self.new.colours.items ≡ length self.old.colours.items) }
        ensures skips { OnOk result (MaySkip self.new.colours.items self.new.after.items) }
        ensures empty { OnOk result (self.new.stack.items ≡ []) }
        ensures holds { OnOk result ((first : ℕ → Colour) → Holds (G.mentions graph.now) (G.rest graph.now) first (hue self.old.colours.items) (reverse self.old.order.items) [] →
            Holds (G.mentions graph.now) (G.rest graph.now) first (hue self.new.colours.items) (reverse self.new.order.items) []) }
        ensures seen { OnOk result ((c : ℕ) → hue self.old.colours.items c ≢ Colour.White → hue self.new.colours.items c ≢ Colour.White) }
        ensures here { OnOk result (hue self.new.colours.items cell ≢ Colour.White) }
    {
        if is_new(&self.colours, cell) {
            self.descend(None, cell)?;
            self.follow(graph)
        } else {
            Ok(())
        }
    }
}

/// For each of so many cells the next number.
fn nexts(alloc: Global, count: u32) -> Result<Vec<u32>, AllocError>
    ensures { IfOk result (λ v. v.items ≡ cells_from 1 count) }
{
    let mut nexts = Vec::with_capacity(alloc, count as usize)?;
    for cell in 0..count {
        nexts.push(cell + 1)?;
    }
    Ok(nexts)
}

/// Walks all cells that are white: each becomes circular, or gets its place in the order behind all
/// that it mentions. Of the others it is known that they are in order or circular; they aren't looked
/// into. Each run of mentions is looked at once, and once more for each cell in it that was white; of
/// the cells in it that are in order all but about a logarithm are skipped. It takes memory with the
/// number of cells alone.
pub fn walk_all<G: Mentions>(
    alloc: Global,
    graph: &G,
    colours: Vec<Colour>,
) -> Result<Found, AllocError>
    requires few { length colours.items < 2 ^ 32 }
    requires within { MentionsWithin (length colours.items) (G.mentions graph.now) }
    requires begin { MayBegin (G.mentions graph.now) (hue colours.items) }
    ensures len { IfOk result (λ w. length w.colours.items ≡ length colours.items) }
    ensures found { IfOk result (λ w. IsFound (G.mentions graph.now) (hue colours.items) (length colours.items) (hue w.colours.items) (reverse w.order.items)) }
{
    let count = colours.len() as u32;
    let mut walk = Walk {
        colours,
        order: Vec::new(alloc),
        stack: Vec::new(alloc),
        after: nexts(alloc, count)?,
    };
    for cell in 0..count {
        walk.visit(graph, cell)?;
    }
    Ok(Found {
        colours: walk.colours,
        order: walk.order,
    })
}

/// So many white cells.
fn white(alloc: Global, count: u32) -> Result<Vec<Colour>, AllocError>
    ensures { IfOk result (λ v. v.items ≡ replicate count Colour.White) }
{
    let colours = vec![in alloc; Colour::White; count as usize]?;
    Ok(colours)
}

/// Walks so many cells, of none of which anything is known.
pub fn walk_new<G: Mentions>(alloc: Global, graph: &G, count: u32) -> Result<Found, AllocError>
    requires { MentionsWithin count (G.mentions graph.now) }
    ensures len { IfOk result (λ w. length w.colours.items ≡ count) }
    ensures found { IfOk result (λ w. IsFound (G.mentions graph.now) (λ c. Colour.White) count (hue w.colours.items) (reverse w.order.items)) }
{
    let colours = white(alloc, count)?;
    walk_all(alloc, graph, colours)
}
