// The calls of `held` that the benchmarks link (oracle/): libheld.a.
#![tactic(auto)]

ghost use Rattle.evf_video.specs.Reading.{number_of};
ghost use Rattle.upgrade.specs.Copy.{told_by};
ghost use Rattle.held.specs.Held.{ReadsHeld, UpgradesHeld};

// Reads a file into a lent board, and its events into a held row: 0, or the number of the refusal, 1 to 12.
#[unsafe(no_mangle)]
pub extern "C" fn evf_read_held_2000(file: &[u8], board: &mut [i8]) -> u8
    ensures { ReadsHeld number_of 2000 file.now board.old result board.new }
{
    held::evf_read_held_2000(file, board)
}

#[unsafe(no_mangle)]
pub extern "C" fn evf_read_held_200000(file: &[u8], board: &mut [i8]) -> u8
    ensures { ReadsHeld number_of 200000 file.now board.old result board.new }
{
    held::evf_read_held_200000(file, board)
}

// Upgrades a file into a lent copy, with the game read into a lent board and a held row: one number, as
// `evf_upgrade` tells it.
#[unsafe(no_mangle)]
pub extern "C" fn evf_upgrade_held_2000(
    file: &[u8],
    board: &mut [i8],
    copy: &mut [u8],
    rule: u8,
) -> usize
    ensures { UpgradesHeld told_by 2000 file.now board.old copy.old rule result
        board.new copy.new }
{
    held::evf_upgrade_held_2000(file, board, copy, rule)
}

#[unsafe(no_mangle)]
pub extern "C" fn evf_upgrade_held_200000(
    file: &[u8],
    board: &mut [i8],
    copy: &mut [u8],
    rule: u8,
) -> usize
    ensures { UpgradesHeld told_by 200000 file.now board.old copy.old rule result
        board.new copy.new }
{
    held::evf_upgrade_held_200000(file, board, copy, rule)
}

// Reads a file's header, and steps over its events by the cursor: how many there are, 0 where the header is
// refused.
#[unsafe(no_mangle)]
pub extern "C" fn evf_cursor_pass(file: &[u8]) -> usize {
    held::evf_cursor_pass(file)
}
