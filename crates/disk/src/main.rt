// Writes to a medium and a chip on files, opens them again, and says what they hold.
#![tactic(auto)]

use anyhow::anyhow;
use devices::chip::Chip;
use devices::fault::Fault;
use devices::medium::Medium;
use files::chip::FileChip;
use files::medium::FileMedium;
use sealing::key::Key;
use std::fs;

fn failed(_fault: Fault) -> anyhow::Error {
    anyhow!("the medium failed")
}

fn length(medium: &FileMedium) -> u64 {
    medium.len().unwrap_or(0)
}

fn write_medium(rt: &HostRuntime) -> anyhow::Result<()> {
    let mut medium = FileMedium::open(rt, "medium")?;
    medium.append(b"abc").map_err(failed)?;
    medium.sync().map_err(failed)?;
    medium.append(b"defg").map_err(failed)?;
    let mut part = [0; 3];
    medium.read_at(2, &mut part).map_err(failed)?;
    println!(rt; "read {part:?} of {}", length(&medium))?;
    let past = medium.read_at(5, &mut part).is_err();
    let beyond = medium.read_at(8, &mut part[0..0]).is_err();
    println!(rt; "past the end: {past} {beyond}")?;
    medium.cut(5).map_err(failed)?;
    medium.cut(9).map_err(failed)?;
    medium.sync().map_err(failed)?;
    println!(rt; "cut to {}", length(&medium))?;
    Ok(())
}

fn read_medium(rt: &HostRuntime) -> anyhow::Result<()> {
    let mut medium = FileMedium::open(rt, "medium")?;
    let mut all = [0; 5];
    medium.read_at(0, &mut all).map_err(failed)?;
    println!(rt; "opened again: {all:?}")?;
    Ok(())
}

fn replace(chip: &mut FileChip, number: u32, medium: &FileMedium) -> Result<(), Fault> {
    let mut bytes = [0; 32];
    bytes[0] = 5;
    bytes[31] = 9;
    let mut key = Key::take(&mut bytes);
    let replaced = chip.replace(&key, number, medium);
    key.wipe();
    replaced
}

fn show_chip(rt: &HostRuntime) -> anyhow::Result<()> {
    match FileChip::open(rt, "chip") {
        Ok(chip) => {
            let key = chip.key().as_bytes();
            println!(rt; "number {}, key {key:?}", chip.number())?;
        }
        Err(why) => println!(rt; "{why}")?,
    }
    Ok(())
}

fn write_chip(rt: &HostRuntime) -> anyhow::Result<()> {
    let medium = FileMedium::open(rt, "medium")?;
    let opened = FileChip::open(rt, "chip");
    let mut chip = opened.map_err(|_| anyhow!("the chip is not fresh"))?;
    match replace(&mut chip, 258, &medium) {
        Ok(()) => println!(rt; "replaced, number {}", chip.number())?,
        Err(_) => println!(rt; "not replaced")?,
    }
    let file = fs::read(rt, "chip")?;
    println!(rt; "file {file:?}")?;
    Ok(())
}

fn spoil_chip(rt: &HostRuntime) -> anyhow::Result<()> {
    fs::write(rt, "chip.new", "left")?;
    show_chip(rt)?;
    let beside = fs::exists(rt, "chip.new")?;
    println!(rt; "left beside it: {beside}")?;
    fs::write(rt, "chip", "short")?;
    show_chip(rt)?;
    let mut bytes = [0; 36];
    bytes[9] = 1;
    fs::write(rt, "chip", &bytes)?;
    show_chip(rt)?;
    fs::remove_file(rt, "chip")?;
    show_chip(rt)
}

fn run(rt: &HostRuntime) -> anyhow::Result<()> {
    write_medium(rt)?;
    read_medium(rt)?;
    write_chip(rt)?;
    spoil_chip(rt)
}

fn main(rt: HostRuntime) -> anyhow::Result<()> {
    run(&rt)
}
