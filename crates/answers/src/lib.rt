// Tells what the one number of an upgrade or of a re-save means.
#![tactic(auto)]

ghost use Rattle.std.specs.Prelude.{◌≡◌};
ghost use Rattle.answers.specs.Answers.{toldApart, TellsUpgrade, TellsResave, TellsCopy};

use upgrade::SHORTEST_COPY;

// What writing a copy came to: the length of the copy, which was written; the number of the refusal; or the
// length that the copy would have, for which there was no room.
#[derive(Clone, Copy)]
pub enum Answer {
    Written(usize),
    Refused(u8),
    Short(usize),
}

// How a copy is made: a replay of version 0 to 3 is upgraded, one of version 4 is re-saved.
#[derive(Clone, Copy)]
pub enum Copying {
    Upgrade,
    Resave,
}

// Tells the one number apart, for a copy of `room` bytes.
fn told_apart(answer: usize, room: usize) -> Answer
    ensures { result ≡ toldApart answer room }
{
    if answer < SHORTEST_COPY {
        return Answer::Refused(answer as u8);
    }
    if answer <= room {
        return Answer::Written(answer);
    }
    Answer::Short(answer)
}

// Upgrades a file by a rule into the first bytes of `copy`, which stays as it was where the answer is not
// `Written`.
pub fn upgrade_into(file: &[u8], copy: &mut [u8], rule: u8) -> Answer
    ensures { TellsUpgrade file.now copy.old rule result copy.new }
{
    let answer = upgrade::evf_upgrade(file, copy, rule);
    told_apart(answer, copy.len())
}

// Re-saves a file by a rule into the first bytes of `copy`, which stays as it was where the answer is not
// `Written`.
pub fn resave_into(file: &[u8], copy: &mut [u8], rule: u8) -> Answer
    ensures { TellsResave file.now copy.old rule result copy.new }
{
    let answer = resave::evf_resave(file, copy, rule);
    told_apart(answer, copy.len())
}

// Does either.
pub fn copy_into(how: Copying, file: &[u8], copy: &mut [u8], rule: u8) -> Answer
    ensures { TellsCopy how file.now copy.old rule result copy.new }
{
    match how {
        Copying::Upgrade => upgrade_into(file, copy, rule),
        Copying::Resave => resave_into(file, copy, rule),
    }
}
