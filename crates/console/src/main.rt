// The console: one command a line on standard input, one answer a line on standard output.
#![tactic(auto)]

use replies::ErrorLine;
use session::Session;
use std::io;
use std::io::{BufRead, BufReader};

// Reads line by line; a line that is no command is answered and changes nothing.
fn main(rt: HostRuntime) -> io::Result<()> {
    let mut session = Session::new(rt.alloc());
    let mut line: u64 = 0;
    for read in BufReader::new(rt.alloc(), rt.stdin())?.split(rt.alloc(), b'\n') {
        let bytes = read?;
        line = line.saturating_add(1);
        match session.answer(rt.alloc(), &bytes) {
            Ok(None) => {}
            Ok(Some(reply)) => println!(rt; "{reply}")?,
            Err(error) => {
                let error = ErrorLine { line, error };
                println!(rt; "{error}")?;
            }
        }
    }
    Ok(())
}
