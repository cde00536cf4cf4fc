// The limits of a process, as Linux writes them (proc_pid_limits(5)): a line for each, its name, the limit, the
// highest that may be set, and a unit; `unlimited` stands for no limit.

// The number at the start of a line's rest; u64::MAX where it spells none.
fn number_in(rest: &str) -> u64 {
    let word = rest.split_whitespace().next().unwrap_or("");
    word.parse().unwrap_or(u64::MAX)
}

// The most bytes that the stack may have; u64::MAX where there is no limit, or no line tells it.
pub(crate) fn stack_limit_in(limits: &[u8]) -> u64 {
    let Ok(text) = str::from_utf8(limits) else {
        return u64::MAX;
    };
    for line in text.lines() {
        if let Some(rest) = line.strip_prefix("Max stack size") {
            return number_in(rest);
        }
    }
    u64::MAX
}
