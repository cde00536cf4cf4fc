// The call of `time_cases` that the benchmark links (oracle/): libtime_cases.a.
#![tactic(auto)]

ghost use Rattle.std.specs.Prelude.{◌≡◌};
ghost use Rattle.times.specs.Times.{converted_by};
ghost use Rattle.time_cases.specs.Told.{told_ms};

// Turns seconds into milliseconds by a rule, for the benchmark alone: a host can take no enum.
#[unsafe(no_mangle)]
pub extern "C" fn evf_s_to_ms(seconds: f64, rule: u8) -> u64
    ensures { result ≡ told_ms (converted_by rule seconds) }
{
    time_cases::evf_s_to_ms(seconds, rule)
}
