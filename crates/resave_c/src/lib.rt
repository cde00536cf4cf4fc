// The call of `resave` that C programs link: libresave.a.
#![tactic(auto)]

ghost use Rattle.resave.specs.Resaved.{ResavesTold};

// Re-saves for hosts, as one number: below `upgrade::SHORTEST_COPY` that of the refusal, else the length of
// the copy, which was written if it is not above the lent copy's.
#[unsafe(no_mangle)]
pub extern "C" fn evf_resave(file: &[u8], copy: &mut [u8], rule: u8) -> usize
    ensures { ResavesTold file.now copy.old rule result copy.new }
{
    resave::evf_resave(file, copy, rule)
}
