// Prints the mean squared error and the PSNR of totals over so many channel values, as the reports of plates say them. Each is sixteen bytes
// of standard input: the total and the number of values, the lowest byte first. The gate holds it to the file `stdout`.
#![tactic(auto)]

ghost use Rattle.std.specs.Prelude.{◌≤◌};

use files::read_full;
use quality::{mean, psnr};
use std::io;
use text::line::{Hundredths, Thousandths};

// The greatest total over one channel value that has a line, and the most values of a picture.
const TOTAL: u64 = 17592186044416;

const VALUES: u64 = 805306368;

// Prints the line of a total over so many values, where these are a picture's.
fn say_quality(rt: &HostRuntime, total: u64, values: u64) -> io::Result<()> {
    if values == 0 || values > VALUES || total > TOTAL.saturating_mul(values) {
        return println!(rt; "{total} {values} outside");
    }
    let mean = Thousandths(mean(total, values));
    match psnr(total, values).map(Hundredths) {
        Some(psnr) => println!(rt; "{total} {values} {mean} {psnr}"),
        None => println!(rt; "{total} {values} {mean} exact"),
    }
}

// The number of eight bytes of a record.
fn number(record: &[u8; 16], at: usize) -> u64
    requires { at ≤ 8 }
{
    let mut bytes = [0u8; 8];
    bytes.copy_from_slice(&record[at..at + 8]);
    u64::from_le_bytes(bytes)
}

// Prints a line for each whole record of standard input.
fn main(rt: HostRuntime) -> io::Result<()> {
    let mut input = rt.reader();
    let mut record = [0u8; 16];
    // counted, as every loop ends: no input has so many records
    for _ in 0..u64::MAX {
        if read_full(&mut input, &mut record) < 16 {
            break;
        }
        say_quality(&rt, number(&record, 0), number(&record, 8))?;
    }
    Ok(())
}
