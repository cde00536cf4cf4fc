// Uncovers a cell of a board: the flood through zeros over a lent buffer. The cells still to be visited are a
// pile that is kept in the buffer itself, so that one entry a cell suffices and nothing recurses.
#![tactic(auto)]

ghost use Rattle.std.specs.Prelude.{◌≡◌, ◌∷◌, [], map, ◌+◌, ◌*◌, ◌<◌, ◌≤◌, length, get_or};
ghost use Rattle.board.specs.Geometry.{before, behind, beside, near, crossing, neighbours, mine_at};
ghost use Rattle.flood.specs.Flood.{is_zero, covered_cell, all_covered, Uncovers};
ghost use Rattle.flood.specs.Pile.{most_cells, InRow, IsPiled, Put, turn};

// An entry of the buffer for a covered cell.
pub const COVERED: u16 = 0;
// An entry for an uncovered cell.
pub const UNCOVERED: u16 = 2;
// While a flood runs, the entry of a cell on the pile is this plus the number of the cell below it, or plus
// the number of all cells where there is none.
const PILED: usize = 3;

// Covers every cell of a board. A buffer that is too short is left as it is.
pub fn cover(height: u8, width: u8, work: &mut [u16])
    ensures { work.new ≡ all_covered height width work.old }
{
    let n = board::cells_of(height, width);
    if n <= work.len() {
        work[..n].fill(COVERED);
    }
}

// Whether cell k of a board is a zero: on the board, no mine, and none around it.
pub fn is_zero(board: &[i8], height: u8, width: u8, k: usize) -> bool
    ensures { result ≡ is_zero (mine_at board.now) height width k }
{
    k < board::cells_of(height, width)
        && !board::is_mine(board, k)
        && board::mines_around(board, height, width, k) == 0
}

// Puts cell j onto the pile if it is covered: the cell on top then.
fn push(work: &mut [u16], j: usize, top: usize) -> usize
    requires { (j < length work.old) × (j ≤ most_cells) × (top ≤ most_cells) }
    ensures { Put (work.new, result) (work.old, top) (j ∷ []) }
{
    if work[j] == COVERED {
        work[j] = (top + PILED) as u16;
        return j;
    }
    top
}

// Puts the cell before column c onto the pile if it is covered, in the row that starts at cell `start`.
fn push_before(work: &mut [u16], start: usize, c: usize, top: usize) -> usize
    requires { (start + c < length work.old) × (start + c ≤ most_cells) × (top ≤ most_cells) }
    ensures { Put (work.new, result) (work.old, top) (map (λ x. start + x) (before c)) }
{
    if c == 0 {
        return top;
    }
    push(work, start + (c - 1), top)
}

// Puts the cell behind column c onto the pile if it is covered, in the row of `width` cells from `start` on.
fn push_behind(work: &mut [u16], width: usize, start: usize, c: usize, top: usize) -> usize
    requires { InRow work.old start width c top }
    ensures { Put (work.new, result) (work.old, top) (map (λ x. start + x) (behind width c)) }
{
    if c + 1 >= width {
        return top;
    }
    push(work, start + (c + 1), top)
}

// Puts the covered cells beside column c onto the pile, in the row that starts at cell `start`.
fn push_beside(work: &mut [u16], width: usize, start: usize, c: usize, top: usize) -> usize
    requires { InRow work.old start width c top }
    ensures { Put (work.new, result) (work.old, top) (map (λ x. start + x) (beside width c)) }
{
    let next = push_before(work, start, c, top);
    push_behind(work, width, start, c, next)
}

// Puts the covered ones of column c and those beside it onto the pile, in the row that starts at `start`.
fn push_near(work: &mut [u16], width: usize, start: usize, c: usize, top: usize) -> usize
    requires { InRow work.old start width c top }
    ensures { Put (work.new, result) (work.old, top) (map (λ x. start + x) (near width c)) }
{
    let next = push(work, start + c, top);
    push_beside(work, width, start, c, next)
}

// Puts the covered cells near column c in the row above row r onto the pile; none where r is the first.
fn push_above(work: &mut [u16], height: u8, width: u8, r: usize, c: usize, top: usize) -> usize
    requires { (height * width ≤ length work.old) × (r < height) × (c < width) × (top ≤ most_cells) }
    ensures { Put (work.new, result) (work.old, top) (crossing width (before r) (near width c)) }
{
    if r == 0 {
        return top;
    }
    let w = width as usize;
    push_near(work, w, (r - 1) * w, c, top)
}

// Puts the covered cells near column c in the row below row r onto the pile; none where r is the last.
fn push_below(work: &mut [u16], height: u8, width: u8, r: usize, c: usize, top: usize) -> usize
    requires { (height * width ≤ length work.old) × (r < height) × (c < width) × (top ≤ most_cells) }
    ensures { Put (work.new, result) (work.old, top)
        (crossing width (behind height r) (near width c)) }
{
    let h = height as usize;
    if h <= r + 1 {
        return top;
    }
    let w = width as usize;
    push_near(work, w, (r + 1) * w, c, top)
}

// Puts the covered neighbours of cell k onto the pile, in the order in which `neighbours` lists them.
fn push_around(work: &mut [u16], height: u8, width: u8, k: usize, top: usize) -> usize
    requires { (height * width ≤ length work.old) × (k < height * width) × (top ≤ most_cells) }
    ensures { Put (work.new, result) (work.old, top) (neighbours height width k) }
{
    let w = width as usize;
    let r = k / w;
    let c = k % w;
    let above = push_above(work, height, width, r, c, top);
    let below = push_below(work, height, width, r, c, above);
    push_beside(work, w, r * w, c, below)
}

// Takes the cell on top off the pile, uncovers it and, where it is a zero, puts its covered neighbours onto
// the pile: the cell on top then.
fn take_top(board: &[i8], height: u8, width: u8, work: &mut [u16], top: usize) -> usize
    requires width_in_bounds { (height * width ≤ length work.old) × (top < height * width) }
    requires piled { IsPiled (height * width) (get_or work.old top 0) }
    ensures { (work.new, result) ≡ turn (neighbours height width)
        (is_zero (mine_at board.now) height width) (work.old, top) }
{
    let next = (work[top] as usize) - PILED;
    work[top] = UNCOVERED;
    if is_zero(board, height, width, top) {
        return push_around(work, height, width, top, next);
    }
    next
}

// Uncovers cell k, which is covered, and all that this uncovers: how many cells that is.
fn flood_from(board: &[i8], height: u8, width: u8, work: &mut [u16], k: usize) -> usize
    requires width_in_bounds { (height * width ≤ length work.old) × (k < height * width) }
    requires k_value { get_or work.old k 0 ≡ covered_cell }
    ensures { Uncovers (mine_at board.now) height width work.old k work.new result }
{
    let n = board::cells_of(height, width);
    let mut top = push(work, k, n);
    let mut took: usize = 0;
    while top < n {
        top = take_top(board, height, width, work, top);
        took += 1;
    }
    took
}

// Uncovers cell k if it is covered, and from each zero so uncovered its covered neighbours: their entries
// become 2. Answers how many cells those are: none where the board has no cell k, its entry is not 0, or the
// buffer is below height x width entries, and then nothing is changed.
pub fn uncover(board: &[i8], height: u8, width: u8, work: &mut [u16], k: usize) -> usize
    ensures { Uncovers (mine_at board.now) height width work.old k work.new result }
{
    let n = board::cells_of(height, width);
    if work.len() < n {
        return 0;
    }
    if n <= k {
        return 0;
    }
    if work[k] == COVERED {
        return flood_from(board, height, width, work, k);
    }
    0
}
