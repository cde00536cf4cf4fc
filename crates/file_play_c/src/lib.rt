// The call of `file_play` that C programs link: libfile_play.a.
#![tactic(auto)]

ghost use Rattle.file_play.specs.FilePlay.{HostPlays};

// Plays for hosts: below 64 the answer is the number of the refusal; 64 is undecided, 65 won, 66 lost.
#[unsafe(no_mangle)]
pub extern "C" fn evf_play(file: &[u8], events: usize, board: &mut [i8], cells: &mut [u16]) -> u8
    ensures { HostPlays file.now events board.old cells.old result
        board.new cells.new }
{
    file_play::evf_play(file, events, board, cells)
}
