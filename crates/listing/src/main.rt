// The listing of a show (document 01, "Rehearsed shows"): the script in `show.scr` is rewritten under the guideline in `show.gl` and run with
// budget 1,000. Prints a line for each log entry and one for the outcome, or a refusal's number and place.
#![tactic(auto)]

mod text;

ghost use Rattle.std.specs.Prelude.{◌≤◌, length, IfOk, IfSome};

use std::fs::File;
use std::io::{Error, ErrorKind, Read, Result as IoResult, Write};
use text::TEXT_BYTES;

// Reads until the buffer is full or the file has ended. It is then full, or the file has been seen to end. A read may give any part of what is
// wanted, so no `for` counts the reads, and std's `read_to_end` has no buffer of a caller's.
fn read_full(file: &mut File, buffer: &mut [u8]) -> IoResult<usize>
    ensures { IfOk result (λ n. n ≤ length buffer.new) }
{
    let mut done = 0;
    while done < buffer.len() {
        let n = file.read(&mut buffer[done..])?;
        if n == 0 {
            break;
        }
        done += n;
    }
    Ok(done)
}

// Tells on standard error why a file cannot be read.
fn tell(rt: &HostRuntime, name: &str, error: Error) {
    // Where that fails too, there is nobody to tell.
    let _told = eprintln!(rt; "{name}: {error}").is_ok();
}

// How many bytes a file gave. None where a read failed: what came is not the file.
fn read_open(rt: &HostRuntime, name: &str, file: &mut File, buffer: &mut [u8]) -> Option<usize>
    ensures { IfSome result (λ n. n ≤ length buffer.new) }
{
    match read_full(file, buffer) {
        Ok(n) => Some(n),
        Err(error) => {
            tell(rt, name, error);
            None
        }
    }
}

// "a missing file reads as empty". One that is there and cannot be read does not: a guideline taken for empty would log nothing.
fn read_file(rt: &HostRuntime, name: &str, buffer: &mut [u8]) -> Option<usize>
    ensures { IfSome result (λ n. n ≤ length buffer.new) }
{
    match File::open(rt, name) {
        Ok(mut file) => read_open(rt, name, &mut file, buffer),
        Err(error) => {
            if error.kind() == ErrorKind::NotFound {
                return Some(0);
            }
            tell(rt, name, error);
            None
        }
    }
}

// The buffers are one record longer than the longest files, so that a longer file is seen to be too long. The text is written at once.
fn main(rt: HostRuntime) -> IoResult<()> {
    let mut script = [0u8; 8200];
    let mut guideline = [0u8; 4112];
    let Some(s) = read_file(&rt, "show.scr", &mut script) else {
        return Ok(());
    };
    let Some(g) = read_file(&rt, "show.gl", &mut guideline) else {
        return Ok(());
    };
    let mut text = [0u8; TEXT_BYTES];
    let n = text::list_into(&script[..s], &guideline[..g], &mut text);
    rt.stdout().write_all(&text[..n])
}
