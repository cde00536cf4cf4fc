// The call of `upgrade` that C programs link: libupgrade.a.
#![tactic(auto)]

ghost use Rattle.upgrade.specs.Copy.{Copies};

// Upgrades a file by a rule without giving the game: below `SHORTEST_COPY` the number of the refusal, else
// the length of the copy, which was written if it is not above the lent copy's.
#[unsafe(no_mangle)]
pub extern "C" fn evf_upgrade(file: &[u8], copy: &mut [u8], rule: u8) -> usize
    ensures { Copies file.now copy.old rule result copy.new }
{
    upgrade::evf_upgrade(file, copy, rule)
}
