//! Reads a script from standard input, a call to a line, and writes an answer to each. A capture file may be named on the command line, and
//! with `--explain` each refused check is told in words too.
#![tactic(auto)]

mod options;
mod reasons;
mod stop;

use answers::Answer;
use console::answer_line;
use forest::Fault;
use options::Options;
use probe::Probe;
use reasons::write_reasons;
use session::Session;
use std::fs;
use std::io::{BufRead, BufReader, BufWriter, Write};
use stop::Stop;

fn main(rt: HostRuntime) -> Result<(), Stop> {
    let Options { explain, capture } = Options::read(&rt)?;
    let probe = begin(&rt, capture)?;
    converse(&rt, probe, explain)
}

/// The probe to begin with: over the capture in the file of that name, or over the empty table.
fn begin(rt: &HostRuntime, name: Option<String>) -> Result<Probe, Stop> {
    let alloc = rt.alloc();
    let probe = Probe::new(alloc).map_err(|_| Stop::OutOfMemory)?;
    let Some(name) = name else {
        return Ok(probe);
    };
    let Ok(bytes) = fs::read(rt, name.as_str()) else {
        return Err(Stop::File(format!(in alloc; "{name}: cannot be read")?));
    };
    match probe.load_capture(alloc, &bytes) {
        (probe, Answer::Number(_)) => Ok(probe),
        (_, Answer::Refused(Fault { reason, layer, row })) => {
            let number = u8::from(reason);
            Err(Stop::File(format!(in alloc; "{name}: refused {number} {layer} {row}")?))
        }
        _ => Err(Stop::OutOfMemory),
    }
}

/// Answers each line of standard input, and explains in words, where that is asked for, why a check is refused.
fn converse(rt: &HostRuntime, mut probe: Probe, explain: bool) -> Result<(), Stop> {
    let alloc = rt.alloc();
    let mut input = BufReader::new(alloc, rt.stdin())?;
    let mut output = BufWriter::new(alloc, rt.stdout())?;
    let mut line = Vec::new(alloc);
    let mut session = Session::new();
    // The lines are numbered, and no input has so many.
    for number in 1..u64::MAX {
        line.clear();
        if input.read_until(b'\n', &mut line)? == 0 {
            break;
        }
        let call = line.strip_suffix(b"\n").unwrap_or(&line);
        let (next, answer) = answer_line(alloc, &mut session, probe, number, call)?;
        probe = next;
        if let Some(text) = answer {
            output.write_all(&text)?;
            output.write_all(b"\n")?;
        }
        if explain && call == b"check".as_slice() {
            write_reasons(alloc, &session, &mut output)?;
        }
        if !input.buffer().contains(&b'\n') {
            output.flush()?;
        }
    }
    output.flush()?;
    Ok(())
}
