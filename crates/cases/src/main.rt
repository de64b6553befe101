// Cases of packs and of read-back that are compared, not proved: the sample, damaged packs for every refusal from 3 to 8,
// and texts. Standard input has a case after another: two 16-bit lengths, lowest byte first, then a pack and a text. For
// each the program writes the first refusal of the pack from 3 to 8, or 0, and what read-back answers.
#![tactic(auto)]

use checks::check;
use depends::is_broken;
use meaning::refusal::Refusal;
use meaning::{ROWS_LENGTH, SETTING_LENGTH};
use readback::read_back;
use records::setting::LoadedSetting;

// A space and a number.
fn say_number(n: u16) {
    io::write_all(1, b" ");
    io::print_decimal(1, n as u64);
}

// Whether none of 3 to 8 refuses the pack; else the first that does.
fn first_refusal(pack: &[u8]) -> Result<(), Refusal> {
    let mut numbers = [0u16; SETTING_LENGTH];
    let mut rows = [0u16; ROWS_LENGTH];
    let counts = check(pack, &mut numbers, &mut rows)?;
    let setting = LoadedSetting {
        counts,
        numbers: &numbers[..],
    };
    if is_broken(&setting, &rows[..]) {
        return Err(Refusal::BrokenDependency);
    }
    Ok(())
}

fn say(pack: &[u8], text: &[u8]) {
    let first = match first_refusal(pack) {
        Ok(()) => 0,
        Err(refusal) => refusal.number(),
    };
    io::print_decimal(1, first as u64);
    match read_back(pack, text) {
        Ok(term) => {
            say_number(term.constructor);
            for &v in &term.values {
                say_number(v);
            }
        }
        Err(refusal) => {
            io::write_all(1, b" refused ");
            io::print_decimal(1, refusal.number() as u64);
        }
    }
    io::write_all(1, b"\n");
}

// The cases from `from` on.
fn say_cases(s: &[u8]) {
    let mut from = 0;
    while from < s.len() {
        if s.len() - from < 4 {
            return;
        }
        let pack = u16::from_le_bytes([s[from], s[from + 1]]) as usize;
        let text = u16::from_le_bytes([s[from + 2], s[from + 3]]) as usize;
        let start = from + 4;
        if s.len() - start < pack {
            return;
        }
        let middle = start + pack;
        if s.len() - middle < text {
            return;
        }
        let end = middle + text;
        say(&s[start..middle], &s[middle..end]);
        from = end;
    }
}

fn main() {
    let mut input = io::large_buffer();
    let n = io::read_full(0, &mut input);
    say_cases(&input[..n]);
}
