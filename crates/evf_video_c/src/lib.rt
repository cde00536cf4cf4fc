// The call of `evf_video` that C programs link: libevf_video.a.
#![tactic(auto)]

ghost use Rattle.std.specs.Prelude.{◌≡◌};
ghost use Rattle.evf_video.specs.Reading.{reading_of, number_of};

// Answers 0 for a file that can be read, else the number of its refusal, 1 to 10.
#[unsafe(no_mangle)]
pub extern "C" fn evf_check(file: &[u8]) -> u8
    ensures { result ≡ number_of (reading_of file.now) }
{
    evf_video::evf_check(file)
}
