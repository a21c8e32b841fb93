//! Runs one engine many times on bytes of its own making: `gsbench WORKLOAD NUMBER .. COUNT`.
//!
//! | Words | What is done COUNT times |
//! |---|---|
//! | `mul_add LEN COUNT` | adds a multiple of LEN bytes to LEN bytes |
//! | `encode D P LEN COUNT` | writes the P parity shards of D data shards of LEN bytes |
//! | `parity D P LEN SEED COUNT` | the same, on the bytes that a seed gives |
//! | `restore D P LEN LOST COUNT` | writes the first LOST of the D data shards anew |
//! | `messages BATCH COUNT` | brings a message of 16 bytes from one ENet peer to another in memory |
//! | `receive Z P LEN EVERY COUNT` | takes the datagrams of a frame of LEN bytes, and hands it |
//! | `take Z P LEN EVERY COUNT` | the same with a client's core, which gives the unit |
//! | `new Z P WINDOW COUNT` | makes a client's core, which takes a datagram and is dropped |
//! | `split Z P LEN COUNT` | splits a frame of LEN bytes, and writes each datagram |
//! | `choose COUNT` | chooses a unit of a tick for a session, which loses three of 30 frames |
//! | `tape N T COUNT` | reads the capture file of the T ticks that N generates, which is written to memory once |
//! | `tape_held N T COUNT` | the same, and each tick is handed to eight holders |
//! | `turns THREADS COUNT` | calls one cell in turns, on each of THREADS threads |
//! | `views VIEWERS COUNT` | reads a tick of a capture of 1,000 ticks, on each of VIEWERS threads |
//!
//! Z is a packet size in bytes, P behind it the percentage of parity, and WINDOW a client's window in frames.
//! Each EVERY-th datagram is lost, and none at 0. Of each 30 frames that `choose` sends the last three are lost.
//!
//! It prints one line: a checksum of what the last turn left (FNV-1a of 32 bits), and how many bytes of
//! data were gone through, or how many calls were made where each is small. So the time that it takes is that
//! of a proved program, and no work can be left out. Messages are given BATCH at a time, and then all that
//! either side writes is brought to the other. A message that isn't told, a file that isn't read, a unit that
//! isn't chosen or a tick that isn't there is `untold`, with status 1. The first word that doesn't fit or is
//! missing is `usage: word W`, counted from 1, with status 2; want of memory is `out of memory`, with status 12.
//! A number is decimal, without a sign or a leading zero.
#![tactic(auto)]

mod bench;
mod choose;
mod codes;
mod frames;
mod messages;
mod new_client;
mod receive;
mod report;
mod rows;
mod sample;
mod settings;
mod shared;
mod take;
mod tape;
mod turns;
mod views;
mod words;
mod workload;

use bench::bench;
use std::process::ExitCode;
use std::{env, io};

fn main(rt: HostRuntime) -> io::Result<ExitCode> {
    let words = env::args(&rt)?.skip(1).collect::<Vec<String>>(rt.alloc())?;
    match bench(&rt, rt.alloc(), &words) {
        Ok(report) => {
            println!(rt; "{report}")?;
            Ok(ExitCode::from(0))
        }
        Err(stop) => {
            eprintln!(rt; "{stop}")?;
            Ok(ExitCode::from(stop.status()))
        }
    }
}
