// The program's input. One byte more than may be is read, so that over-long input is over-long for the calls too.
ghost use Rattle.io.specs.Counts.{IsPrefixLen};

use std::fs::File;
use std::io::Read;

// Reads until the file ends, a read fails or pack is full; how many bytes it has then.
fn read_full(file: &mut File, pack: &mut [u8]) -> usize
    ensures { IsPrefixLen result pack.new }
{
    let mut done = 0;
    while done < pack.len() {
        match file.read(&mut pack[done..]) {
            Ok(0) | Err(_) => return done,
            Ok(n) => done += n,
        }
    }
    done
}

// Reads catalogue.pack; how many bytes it has. A file that can't be read counts as empty.
pub fn read_pack(rt: &HostRuntime, pack: &mut [u8]) -> usize
    ensures { IsPrefixLen result pack.new }
{
    match File::open(rt, "catalogue.pack") {
        Ok(mut file) => read_full(&mut file, pack),
        Err(_) => 0,
    }
}

// Reads the query from standard input; how many bytes it has, less one final line feed.
pub fn query_length(query: &mut [u8]) -> usize
    ensures { IsPrefixLen result query.new }
{
    let n = io::read_full(0, query);
    match query[..n].last() {
        Some(b'\n') => n - 1,
        _ => n,
    }
}
