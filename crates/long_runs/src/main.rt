// Long runs, up to 10,737,418,245 ticks: raw counts past 16 bits, counts through both ends of 32 bits, and the top of the watchdogs.
#![tactic(auto)]

use machine::Machine;
use pages::Page;
use playing::{play_often, run_often, write};
use std::rt::Files;

// The record of so many ticks with the inputs low and gate 0 high.
fn record(repeat: u16) -> [u8; 14] {
    let [high, low] = repeat.to_be_bytes();
    [1, 0, 11, high, low, 0, 0, 0, 0, 0, 0, 0, 0, 1]
}

// So many records of 65,535 ticks, and one of another number.
fn ticks(machine: &mut Machine, records: u32, more: u16) {
    run_often(
        &mut machine.state,
        &mut machine.mem,
        &record(65535),
        records,
    );
    run_often(&mut machine.state, &mut machine.mem, &record(more), 1);
}

// Two registers as one number, the second first.
fn put_pair(page: Page, machine: &Machine, address: u16) -> Page {
    page.put(b' ')
        .put_hexadecimal(4, machine.word(address.wrapping_add(1)).into())
        .put_hexadecimal(4, machine.word(address).into())
}

// The counts of counters 0 and 1 in a line.
fn tell_counts(rt: &impl Print, machine: &Machine, name: &[u8]) {
    let up = put_pair(Page::new().put_text(name), machine, 0x1200);
    write(rt, put_pair(up, machine, 0x1202).put(b'\n'));
}

// The errors of the last six watchdogs in a line.
fn tell_errors(rt: &impl Print, machine: &Machine, name: &[u8]) {
    let page = Page::new().put_text(name);
    write(
        rt,
        page.put_hexadecimal(4, machine.word(0x0714).into())
            .put(b'\n'),
    );
}

// The raw count of input 53 after 65,538 rises while RESET is set.
fn raw_rises(rt: &(impl Files + Print + Eprint)) {
    let mut machine = playing::begin(rt, b"reset");
    play_often(rt, &mut machine.state, &mut machine.mem, b"pulse_53", 65538);
    let name = Page::new().put_text(b"raw count after 65538 rises under RESET:");
    write(rt, put_pair(name, &machine, 0x136A).put(b'\n'));
}

// Counter 0 counts a test signal up and counter 1 down, one rise in five ticks: 2,147,483,647 rises, and two more.
fn wraps(rt: &(impl Files + Print + Eprint)) {
    let mut machine = playing::begin(rt, b"both_ways");
    ticks(&mut machine, 163842, 32765);
    tell_counts(rt, &machine, b"counts after 2147483647 rises, up and down:");
    ticks(&mut machine, 0, 5);
    tell_counts(rt, &machine, b"counts after one more:");
    ticks(&mut machine, 0, 5);
    tell_counts(rt, &machine, b"counts after another:");
}

// With the timeout of power-up, 65,535, the error comes at the top, 8,388,480; the value stays there.
fn watchdog_top(rt: &(impl Files + Print + Eprint)) {
    let mut machine = playing::begin(rt, b"last_watchdogs_reset");
    ticks(&mut machine, 127, 65534);
    tell_errors(rt, &machine, b"watchdogs after 8388479 ticks: ");
    ticks(&mut machine, 0, 1);
    tell_errors(rt, &machine, b"watchdogs after 8388480 ticks: ");
    play_often(
        rt,
        &mut machine.state,
        &mut machine.mem,
        b"last_watchdogs_reset",
        1,
    );
    tell_errors(rt, &machine, b"watchdogs after a reset: ");
    ticks(&mut machine, 32768, 32768);
    tell_errors(rt, &machine, b"watchdogs after 2147483648 ticks more: ");
}

fn main(rt: HostRuntime) {
    raw_rises(&rt);
    wraps(&rt);
    watchdog_top(&rt);
}
