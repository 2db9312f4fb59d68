// Plays a text of calls: reads calls on standard input, a line each, and writes their answers on standard output.
#![tactic(auto)]

mod answers;
mod call;
mod input;
mod player;
mod stop;
mod text;

use call::Line;
use input::Input;
use player::Player;
use std::io;
use std::io::{BufReader, BufWriter, Read, Write};
use stop::Stop;

// How many bytes are read at once, and how many wait to be written.
const BUFFER: usize = 65536;

// Plays the lines of the input in order. A line that is no call ends the run, and so does a read or a write that fails.
fn play<R: Read + Drop, W: Write>(
    input: &mut Input<R>,
    player: &mut Player,
    out: &mut W,
) -> Result<(), Stop> {
    // the bound is for the proof that the loop ends: no input has so many lines
    for number in 1..=u64::MAX {
        match call::read_line(input) {
            Ok(Line::Call(call)) => player.play(call, input, out).map_err(Stop::Write)?,
            Ok(Line::PassedOver) => {}
            Ok(Line::End) => return Ok(()),
            Err(Stop::BadCall) => {
                writeln!(out, "bad call at line {number}").map_err(Stop::Write)?;
                return Err(Stop::BadCall);
            }
            Err(stop) => return Err(stop),
        }
    }
    Ok(())
}

// Plays the calls and writes out what is left. A read or a write that failed is the error.
fn main(rt: HostRuntime) -> io::Result<()> {
    let mut input = Input::new(
        rt.alloc(),
        BufReader::with_capacity(rt.alloc(), BUFFER, rt.stdin())?,
    )?;
    let mut player = Player::new(rt.alloc())?;
    let mut out = BufWriter::with_capacity(rt.alloc(), BUFFER, rt.stdout())?;
    let outcome = match play(&mut input, &mut player, &mut out) {
        Ok(()) | Err(Stop::BadCall) => out.flush(),
        Err(Stop::Read(e)) => out.flush().and(Err(e)),
        Err(Stop::Write(e)) => Err(e),
    };
    // after a write that failed nothing more is written: dropped whole, the writer would try again
    let _ = out.into_parts();
    outcome
}
