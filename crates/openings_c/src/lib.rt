// The call of `openings` that C programs link: libopenings.a.
#![tactic(auto)]

ghost use Rattle.openings.specs.Recount.{HostRecounted};

// Recounts for hosts: below 65536 the answer is the number of the refusal, else (openings + 1) x 65536 + 3BV.
#[unsafe(no_mangle)]
pub extern "C" fn evf_recount(height: usize, width: usize, board: &[i8], work: &mut [u16]) -> usize
    ensures { HostRecounted height width board.now work.old work.new result }
{
    openings::evf_recount(height, width, board, work)
}
