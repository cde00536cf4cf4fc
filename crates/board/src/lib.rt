// The board: its bits in and out, the numbers of its cells, the mines found. A mine is -1; cells are numbered
// row by row from 0. Bits and cells past the end of what is lent count as 0.
#![tactic(auto)]

ghost use Rattle.std.specs.Prelude.{◌≡◌, cond, map, ◌+◌, ◌*◌, ◌≤◌, ◌<◌, ltb, length, get_or};
ghost use Rattle.std.proofs.lemmas.List.Edits.{sets};
ghost use Rattle.lists.specs.Lists.{each, count};
ghost use Rattle.board.specs.Geometry.{beside, near, number, cell_of, board_after, mine_at, mark_of};
ghost use Rattle.board.specs.Geometry.{mines_in};
ghost use Rattle.board.specs.Bits.{bit_of, bit_at, of_bits, packed, packed_length};

// For r from 0 to 8, the byte whose first r bits are set, the high bit first.
const MASKS: [u8; 9] = [0, 0x80, 0xC0, 0xE0, 0xF0, 0xF8, 0xFC, 0xFE, 0xFF];

// The cells of a board: at most 255 x 255.
pub fn cells_of(height: u8, width: u8) -> usize
    ensures { (result ≡ height * width) × (result ≤ 65025) }
{
    (height as usize) * (width as usize)
}

// The bytes that a board's bits take.
pub fn packed_len(height: u8, width: u8) -> usize
    ensures { result ≡ packed_length (height * width) }
{
    (cells_of(height, width) + 7) / 8
}

// Whether cell k is a mine.
pub fn is_mine(board: &[i8], k: usize) -> bool
    ensures { result ≡ mine_at board.now k }
{
    board.get(k) == Some(&-1)
}

// 1 for a mine in cell k, else 0: without a branch on what the cell holds, since nobody can foresee mines.
fn mine_at(board: &[i8], k: usize) -> u8
    ensures { (result ≡ cond (mine_at board.now k) 1 0) × (result ≤ 1) }
{
    is_mine(board, k) as u8
}

// The mines beside column c in the row that starts at cell `start`.
fn mines_beside(board: &[i8], width: usize, start: usize, c: usize) -> u8
    requires { (width < 256) × (start < 65536) × (c < width) }
    ensures { (result ≡ count (mine_at board.now) (map (λ x. start + x) (beside width c))) × (result ≤ 2) }
{
    let mut n: u8 = 0;
    if 0 < c {
        n = mine_at(board, start + (c - 1));
    }
    if c + 1 < width {
        n = n + mine_at(board, start + (c + 1));
    }
    n
}

// The same, and the cell in column c too.
fn mines_near(board: &[i8], width: usize, start: usize, c: usize) -> u8
    requires { (width < 256) × (start < 65536) × (c < width) }
    ensures { (result ≡ count (mine_at board.now) (map (λ x. start + x) (near width c))) × (result ≤ 3) }
{
    mine_at(board, start + c) + mines_beside(board, width, start, c)
}

// The mines around cell k of a board; 0 for a place that is not on it.
pub fn mines_around(board: &[i8], height: u8, width: u8, k: usize) -> u8
    ensures { result ≡ cond (ltb k (height * width)) (number (mine_at board.now) height width k) 0 }
{
    if cells_of(height, width) <= k {
        return 0;
    }
    let h = height as usize;
    let w = width as usize;
    let r = k / w;
    let c = k % w;
    let mut n = mines_beside(board, w, r * w, c);
    if 0 < r {
        n = n + mines_near(board, w, (r - 1) * w, c);
    }
    if r + 1 < h {
        n = n + mines_near(board, w, (r + 1) * w, c);
    }
    n
}

// Cell k: -1 for a mine, else its number.
fn cell_at(board: &[i8], height: u8, width: u8, k: usize) -> i8
    requires { k < height * width }
    ensures { result ≡ cell_of (mine_at board.now) height width k }
{
    if is_mine(board, k) {
        return -1;
    }
    mines_around(board, height, width, k) as i8
}

// -1 stays; every other of the first height x width cells becomes its number. A board that is too short is
// left as it is.
pub fn cal_board_numbers(height: u8, width: u8, board: &mut [i8])
    ensures { board.new ≡ board_after (mine_at board.old) height width board.old }
{
    let n = cells_of(height, width);
    if board.len() < n {
        return;
    }
    for k in 0..n {
        board[k] = cell_at(board, height, width, k);
    }
}

// Byte i; 0 past the end.
fn byte_at(bytes: &[u8], i: usize) -> u8
    ensures { result ≡ get_or bytes.now i 0 }
{
    bytes.get(i).copied().unwrap_or(0)
}

// Whether bit k is set.
fn bit_at(bits: &[u8], k: usize) -> bool
    ensures { result ≡ bit_at bits.now k }
{
    let shift = 7 - k % 8;
    (byte_at(bits, k / 8) >> shift) % 2 == 1
}

// -1 for bit k, 0 where it is not set.
fn mark_at(bits: &[u8], k: usize) -> i8
    ensures { result ≡ mark_of (bit_at bits.now) k }
{
    if bit_at(bits, k) {
        return -1;
    }
    0
}

// -1 and 0 from the first bits, one for each cell.
fn unpack(bits: &[u8], board: &mut [i8])
    ensures { board.new ≡ each (length board.old) (mark_of (bit_at bits.now)) }
{
    for (k, cell) in board.iter_mut().enumerate() {
        *cell = mark_at(bits, k);
    }
}

// The cells of a packed board into the first height x width of `board`. A board that is too short is left as
// it is.
pub fn read_board(bits: &[u8], height: u8, width: u8, board: &mut [i8])
    ensures { board.new ≡ board_after (bit_at bits.now) height width board.old }
{
    let n = cells_of(height, width);
    if n <= board.len() {
        unpack(bits, &mut board[..n]);
        cal_board_numbers(height, width, board);
    }
}

// The ones among the first r bits of a byte.
fn ones_in(b: u8, r: usize) -> usize
    requires { r < 9 }
    ensures { (result ≡ mines_in (bit_of b) r) × (result ≤ 8) }
{
    u8::count_ones(b & MASKS[r]) as usize
}

// The ones among the first height x width bits: the mines found. The pad of the last byte is masked off.
pub fn mines_found(bits: &[u8], height: u8, width: u8) -> usize
    ensures { result ≡ mines_in (bit_at bits.now) (height * width) }
{
    let n = cells_of(height, width);
    let whole = n / 8;
    let mut sum: usize = 0;
    for byte in bits.iter().take(whole) {
        sum += ones_in(*byte, 8);
    }
    sum + ones_in(byte_at(bits, whole), n % 8)
}

// The packed mines of eight cells, from the eighth of j on.
fn packed_byte(cells: &[i8], j: usize) -> u8
    requires { j < 65536 }
    ensures { result ≡ of_bits 8 (λ m. mine_at cells.now (j * 8 + m)) }
{
    let mut b: u8 = 0;
    for m in 0..8 {
        b = b * 2 + mine_at(cells, j * 8 + m);
    }
    b
}

// The packed mines of a board into `out` from `at` on. What does not fit is dropped.
pub fn put_board(board: &[i8], height: u8, width: u8, out: &mut [u8], at: usize)
    ensures { out.new ≡ sets out.old at (packed (mine_at board.now) (height * width)) }
{
    let cells = &board[..usize::min(cells_of(height, width), board.len())];
    for j in 0..packed_len(height, width) {
        lists::put_byte(out, at, j, packed_byte(cells, j));
    }
}
