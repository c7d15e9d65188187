// The program `sheet` (01, "The sheet"): reads a sheet from standard input and prints its answer.
#![tactic(auto)]

use std::io;

// The bytes of the answer to a sheet.
fn answer<'a>(sheet: &[u8], out: &'a mut [u8]) -> &'a [u8] {
    match sheet_job::run_sheet(sheet, out) {
        Ok(n) => lines::first(out, n),
        Err(_) => &[],
    }
}

// One byte more than the longest sheet has is read, so that what is longer is seen to be none.
fn main(rt: HostRuntime) -> io::Result<()> {
    let mut text = [0u8; sheet_job::LONGEST_SHEET + 1];
    let n = lines::read_full(&mut rt.reader(), &mut text)?;
    let mut out = [0u8; sheet_job::LONGEST_ANSWER];
    rt.write_all(answer(&text[..n], &mut out))
}
