// Recounts a board's openings and its 3BV from its mines alone. Linear in the cells, with one u16 of working
// room for each, and no recursion.
#![tactic(auto)]

ghost use Rattle.std.specs.Prelude.{◌≡◌, ◌*◌, ◌<◌, ◌≤◌, length};
ghost use Rattle.lists.specs.Lists.{each, count};
ghost use Rattle.board.specs.Geometry.{mine_at};
ghost use Rattle.openings.specs.Recount.{Recounted, HostRecounted};
ghost use Rattle.openings.specs.Turns.{AllCovered, open_at, left_over, AllOpen};

use flood::COVERED;

// A board's openings and its 3BV, in this order; or the number of the refusal.
#[derive(Clone, Copy)]
pub enum Recount {
    Counts(usize, usize),
    Refused(u8),
}

// Uncovers cell k if it is still covered and a zero: 1 if it was, else 0.
fn open_at(board: &[i8], height: u8, width: u8, work: &mut [u16], k: usize) -> usize
    requires { k < length work.old }
    ensures { (work.new, result)
        ≡ open_at (mine_at board.now) height width work.old k }
{
    if work[k] == COVERED && flood::is_zero(board, height, width, k) {
        flood::uncover(board, height, width, work, k);
        return 1;
    }
    0
}

// Uncovers the zeros one by one where all cells are covered: the number of openings.
fn open_zeros(board: &[i8], height: u8, width: u8, work: &mut [u16]) -> usize
    requires { (height * width ≤ length work.old) × AllCovered (height * width) work.old }
    ensures { AllOpen (mine_at board.now) height width work.old work.new result }
{
    let n = board::cells_of(height, width);
    let mut openings: usize = 0;
    for k in 0..n {
        openings += open_at(board, height, width, work, k);
    }
    openings
}

// How many cells are still covered and no mines.
#[tactic(auto, using(crate::proofs::Tally::tally_more))]
fn count_left(board: &[i8], cells: &[u16]) -> usize
    ensures { (result ≡ count (left_over (mine_at board.now) cells.now) (each (length cells.now) (λ k. k)))
        × (result ≤ length cells.now) }
{
    let mut left: usize = 0;
    for (k, cell) in cells.iter().enumerate() {
        if *cell == COVERED && !board::is_mine(board, k) {
            left += 1;
        }
    }
    left
}

// Recounts a board of height x width cells. Only -1 is a mine, whatever number another cell holds, and cells
// past height x width do not count. Refuses with 15, 17 or 24, the first of them that holds, and then changes
// nothing; else the first height x width entries of `work` hold anything, and those behind are as they were.
pub fn recount_bbbv(height: usize, width: usize, board: &[i8], work: &mut [u16]) -> Recount
    ensures { Recounted height width board.now work.old work.new result }
{
    let refusal = game::work_refusal(height, width, board.len(), work.len());
    if refusal != 0 {
        return Recount::Refused(refusal);
    }
    let n = height * width;
    let h = height as u8;
    let w = width as u8;
    flood::cover(h, w, work);
    let openings = open_zeros(board, h, w, work);
    let lone = count_left(board, &work[..n]);
    Recount::Counts(openings, openings + lone)
}

// Recounts for hosts: below 65536 the answer is the number of the refusal, else (openings + 1) x 65536 + 3BV.
#[unsafe(no_mangle)]
pub extern "C" fn evf_recount(height: usize, width: usize, board: &[i8], work: &mut [u16]) -> usize
    ensures { HostRecounted height width board.now work.old work.new result }
{
    match recount_bbbv(height, width, board, work) {
        Recount::Counts(openings, bbbv) => (openings + 1) * 65536 + bbbv,
        Recount::Refused(n) => n as usize,
    }
}
