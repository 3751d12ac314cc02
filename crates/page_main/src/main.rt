//! The program page: it reads campaign.atl and, from standard input, a selection, and prints the page or the line of its refusal.
#![tactic(auto)]

use pages::{MOST_BYTES, PRINTED_BYTES, print_page};
use stored_input::{read_file, try_read_full};

// Room for one byte more than a page takes: so what is too long is found to be. Of a fixed size, since nothing is allocated.
const MOST_READ: usize = MOST_BYTES + 1;

// Reads the selection. An input that fails is told of on standard error: its tags up to there are read, and the reader should know that more
// may be missing.
fn read_input<'a>(rt: &HostRuntime, buf: &'a mut [u8]) -> &'a [u8] {
    let read = try_read_full(&mut rt.stdin(), buf);
    if read.is_err() {
        let _ = rt.eprintln("page: the input cannot be read");
    }
    let n = read.unwrap_or_else(|failed| failed.after);
    &buf[..n]
}

// Writes to the output; one that fails is told of on standard error.
fn write_out(rt: &(impl Print + Eprint), text: &[u8]) {
    if rt.write_all(text).is_err() {
        let _ = rt.eprintln("page: the output cannot be written");
    }
}

// Says on standard error what a reader of the page cannot see: that no record was read, and why a selection is none.
fn remark(rt: &impl Eprint, campaign: Option<&[u8]>, selection: &[u8]) {
    if campaign.is_none() {
        let _ = rt.eprintln("page: campaign.atl cannot be read, and counts as empty");
    }
    if selection.contains(&b'\r') {
        let _ = rt.eprintln(
            "page: the selection has a carriage return: a line feed alone ends each tag",
        );
    }
}

// Prints what the bytes read of both come to.
fn print(rt: &(impl Print + Eprint), campaign: Option<&[u8]>, selection: &[u8]) {
    let mut out = [0u8; PRINTED_BYTES];
    if let Ok(n) = print_page(campaign, selection, &mut out) {
        write_out(rt, &out[0..n]);
    }
}

// The input is read before the file is opened: an open may give the number of a closed input.
fn main(rt: HostRuntime) {
    let mut input = [0u8; MOST_READ];
    let mut s = [0u8; MOST_READ];
    let selection = read_input(&rt, &mut input);
    let campaign = read_file(&rt, "campaign.atl", &mut s);
    remark(&rt, campaign, selection);
    print(&rt, campaign, selection);
}
