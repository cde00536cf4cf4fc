// The call of `file_badge` that C programs link: libfile_badge.a.
#![tactic(auto)]

ghost use Rattle.file_badge.specs.FileBadge.{HostBadges};

// Judges the badge of a file for hosts. `wish` is 0 for the rule of the file's version, 1 for the older rule, 2
// for the newer; any other is answered with 255, and nothing is changed. Below 64 the answer is the number of
// the refusal; 64 is not earned and not claimed by the file, 65 earned and not claimed, 66 not earned and
// claimed, 67 earned and claimed.
#[unsafe(no_mangle)]
pub extern "C" fn evf_badge(file: &[u8], wish: u8, board: &mut [i8], cells: &mut [u16]) -> u8
    ensures { HostBadges file.now wish board.old cells.old result
        board.new cells.new }
{
    file_badge::evf_badge(file, wish, board, cells)
}
