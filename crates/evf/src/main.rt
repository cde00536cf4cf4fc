// The tool `evf`; what it does is in `tool_commands`.
#![tactic(auto)]

fn main(rt: HostRuntime) {
    tool_commands::start(&rt);
}
