// A store on two files, `medium` and `chip`, or on those that the arguments name: a command a line, an answer a line.
#![tactic(auto)]

use anyhow::anyhow;
use files::chip::FileChip;
use files::medium::FileMedium;
use session::session::Session;
use std::io::Read;
use std::{env, io};

// Room for a line from the first: one that grows would leave copies behind.
const LINE: usize = 1 << 16;

fn read_byte(input: &mut impl Read) -> io::Result<Option<u8>> {
    let mut byte = [0];
    let count = input.read(&mut byte)?;
    Ok(if count == 0 { None } else { Some(byte[0]) })
}

// The next line in place of what stands in a buffer, without its line feed; none at the end of the input. It is read a byte at a time, so that no buffer but this one has what stands in it.
fn read_line<'a>(input: &mut impl Read, line: &'a mut Vec<u8>) -> io::Result<Option<&'a mut [u8]>> {
    line.clear();
    // A loop must have an end, and none is known of the input.
    for _ in 0..u64::MAX {
        match read_byte(input)? {
            None if line.is_empty() => return Ok(None),
            None | Some(b'\n') => return Ok(Some(line)),
            Some(byte) => line.push(byte)?,
        }
    }
    Ok(None)
}

// A medium that has bytes was written by an earlier session.
fn open_medium(rt: &HostRuntime, path: &str) -> anyhow::Result<FileMedium> {
    let medium = FileMedium::open(rt, path)?;
    let length = medium
        .len()
        .map_err(|_| anyhow!("the medium can't be read"))?;
    if length > 0 {
        return Err(anyhow!(
            "the medium is not empty: a store that was there before can't be opened yet"
        ));
    }
    Ok(medium)
}

// Answers each line as soon as it is read, and wipes it.
fn answer_lines(rt: &HostRuntime, session: &mut Session) -> anyhow::Result<()> {
    let mut input = rt.stdin();
    let mut buffer = Vec::with_capacity(rt.alloc(), LINE)?;
    for _ in 0..u64::MAX {
        let Some(line) = read_line(&mut input, &mut buffer)? else {
            break;
        };
        let answer = session.answer(line);
        octets::wipe(line);
        if let Some(text) = answer? {
            println!(rt; "{text}")?;
        }
    }
    Ok(())
}

fn run(rt: &HostRuntime) -> anyhow::Result<()> {
    let mut args = env::args(rt)?.skip(1);
    let medium_path = args.next();
    let chip_path = args.next();
    let medium = open_medium(rt, medium_path.as_deref().unwrap_or("medium"))?;
    let chip = FileChip::open(rt, chip_path.as_deref().unwrap_or("chip"))?;
    let opened = Session::new(rt.alloc(), medium, chip);
    let mut session = opened.map_err(|_| {
        anyhow!(
            "the chip has a key, and the medium is empty: the medium is old (4), or there is no memory"
        )
    })?;
    let answered = answer_lines(rt, &mut session);
    session.end();
    answered
}

fn main(rt: HostRuntime) -> anyhow::Result<()> {
    run(&rt)
}
