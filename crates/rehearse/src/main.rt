// Runs the trace on standard input, at most 65,536 bytes of it, and prints what it leaves.
// What is printed for the bytes read is `printing::rehearse`; a failure is told on standard error.
#![tactic(auto)]

fn main(rt: HostRuntime) {
    let mut buf = io::large_buffer();
    let Ok(trace) = standard_input::read_input(&mut rt.stdin(), &mut buf) else {
        let _ = rt.eprintln("rehearse: cannot read standard input");
        return;
    };
    let page = printing::rehearse(trace);
    if rt.write_all(page.as_bytes()).is_err() {
        let _ = rt.eprintln("rehearse: cannot write standard output");
    }
}
