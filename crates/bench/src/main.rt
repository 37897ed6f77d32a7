// The bench: telegrams as lines of text against a drive with just the demanded blocks.
#![tactic(auto)]

mod blocks;
mod line;

ghost use Rattle.std.specs.Prelude.{◌≡◌, None, IfOk, OnErr};
ghost use Rattle.bench.specs.Exchanges.{has_place, has_telegram, mdt_of, after_sent, shown_sent, shown_after, after_line, shown_of};
ghost use Rattle.drive.specs.Machines.{view};

use drive::drive::{ALL, Drive};
use line::{Answer, Line, Shown};
use refusal::Refusal;
use rows::plan::Plan;
use std::alloc::{AllocError, Global};
use std::io;
use std::io::{BufRead, BufReader};
use store::store::Store;
use table::table::Table;

// An MDT with the record in its place, and the rest of its data 0.
fn mdt<S: Store>(
    heap: Global,
    drive: &Drive<S>,
    control: u16,
    info: u16,
) -> Result<Vec<u8>, AllocError>
    ensures { IfOk result (λ t. has_place (view S.Store.blocks drive.now) → t.items ≡ mdt_of (view S.Store.blocks drive.now) control info) }
{
    let mut bytes = vec![in heap; drive.mdt_address()]?;
    bytes.resize(drive.mdt_size(), 0)?;
    let start = drive.record_start();
    let [a, b] = control.to_le_bytes();
    let [c, d] = info.to_le_bytes();
    if start + 4 <= bytes.len() {
        bytes[start..start + 4].copy_from_slice(&[a, b, c, d]);
    }
    Ok(bytes)
}

// What the next AT shows.
fn next_at<S: Store>(drive: &Drive<S>) -> Result<Answer, Refusal>
    ensures { result ≡ shown_after None (view S.Store.blocks drive.now) }
{
    let mut at = [0u8; 5];
    drive.at(0, &mut at)?;
    let [_, a, b, c, d] = at;
    Ok(Answer {
        status: u16::from_le_bytes([a, b]),
        info: u16::from_le_bytes([c, d]),
    })
}

// Hands a line's telegram to the drive, and asks for the next AT.
fn exchange<S: Store>(drive: &mut Drive<S>, line: Line, telegram: &[u8]) -> Result<Answer, Refusal>
    ensures shown { result ≡ shown_sent (view S.Store.blocks drive.old) line telegram.now }
    ensures after { view S.Store.blocks drive.new ≡ after_sent (view S.Store.blocks drive.old) line telegram.now }
{
    match line {
        Line::Info(_) => drive.mst(telegram)?,
        Line::Record { .. } => {
            drive.mdt(telegram)?;
        }
    }
    next_at(drive)
}

// Answers a line; only an MDT takes memory.
fn answer<S: Store>(heap: Global, drive: &mut Drive<S>, line: Line) -> Result<Shown, AllocError>
    ensures shown { IfOk result (λ s. has_telegram (view S.Store.blocks drive.old) line → s.0 ≡ shown_of (view S.Store.blocks drive.old) line) }
    ensures after { IfOk result (λ _. has_telegram (view S.Store.blocks drive.old) line → view S.Store.blocks drive.new ≡ after_line (view S.Store.blocks drive.old) line) }
    ensures err { OnErr result (view S.Store.blocks drive.new ≡ view S.Store.blocks drive.old) }
{
    match line {
        Line::Info(info) => Ok(Shown(exchange(drive, line, &[ALL, info]))),
        Line::Record { control, info } => {
            let telegram = mdt(heap, drive, control, info)?;
            Ok(Shown(exchange(drive, line, telegram.as_slice())))
        }
    }
}

// Answers every line of the input, whatever bytes it has.
fn serve<S: Store>(rt: &HostRuntime, drive: &mut Drive<S>) -> io::Result<()> {
    let heap = rt.alloc();
    for text in BufReader::new(heap, rt.stdin())?.split(heap, b'\n') {
        let text = text?;
        let Some(line) = line::parse(text.as_slice()) else {
            rt.println("?")?;
            continue;
        };
        rt.println(answer(heap, drive, line)?)?;
    }
    Ok(())
}

// Makes drive 1 over a store and serves it.
fn bench<S: Store + Drop>(rt: &HostRuntime, store: S) -> io::Result<()> {
    match Drive::make(1, store) {
        Ok(mut drive) => serve(rt, &mut drive),
        Err((refusal, _)) => rt.println(Shown(Err(refusal))),
    }
}

fn main(rt: HostRuntime) -> io::Result<()> {
    let plan = Plan::new(&blocks::ROWS);
    let mut states = blocks::STATES;
    let mut bytes = blocks::BYTES;
    bench(&rt, Table::new(&plan, &mut states, &mut bytes))
}
