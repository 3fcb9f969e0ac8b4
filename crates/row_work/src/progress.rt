// Work on the rows of blocks of a picture, and its progress, on standard error and only where that is a terminal.
ghost use Rattle.std.specs.Prelude.{◌≡◌, ℕ, ◌+◌, ◌<◌, ◌≤◌, OnOk};

use sizes::rows::Rows;
use std::io::{IsTerminal, Print};

// After how many rows of blocks it is said again.
const EVERY: usize = 16;

// What is done with each row of blocks.
pub trait RowWork {
    type Error;

    // How many rows the picture has.
    ghost rows_of: { Self → ℕ };

    // The row that the work begins with, by which a work that counts its rows knows at the end how many they were.
    ghost first: { Self → ℕ };

    // What holds before a row.
    ghost ready: { Self → ℕ → Type 0 };

    // Does the work on a row.
    fn work_on(&mut self, rt: &HostRuntime, row: usize) -> Result<(), Self::Error>
        requires { ready self.old row × (row < rows_of self.old) }
        ensures next { OnOk result (ready self.new (row + 1)) }
        ensures same { OnOk result ((rows_of self.new ≡ rows_of self.old) × (first self.new ≡ first self.old)) };
}

// Says how many rows are done, in a line that the next one overwrites.
fn progress(rt: &HostRuntime, name: &str, done: usize, count: usize) {
    let err = rt.stderr();
    if done > 0 && done % EVERY == 0 && err.is_terminal() {
        let _ = print!(err; "{name}: row {done} of {count}\r");
    }
}

// Clears the line that says how many rows are done, after the last.
fn progress_ended(rt: &HostRuntime, count: usize) {
    let err = rt.stderr();
    if count > EVERY && err.is_terminal() {
        let _ = err.print("\x1b[K");
    }
}

// Does the work on rows one after the other, up to the first that fails.
fn work_on_rows<T: RowWork>(
    rt: &HostRuntime,
    name: Option<&str>,
    rows: Rows,
    work: &mut T,
) -> Result<(), T::Error>
    requires { T.ready work.old rows.from × (rows.from + rows.count ≤ T.rows_of work.old) }
    ensures { OnOk result (T.ready work.new (rows.from + rows.count) × (T.first work.new ≡ T.first work.old)) }
{
    for row in rows.from..rows.end() {
        if let Some(name) = name {
            progress(rt, name, row - rows.from, rows.count);
        }
        work.work_on(rt, row)?;
    }
    Ok(())
}

// Does the work on rows, up to the first that fails. A work with a name has its progress said.
pub fn each_row<T: RowWork>(
    rt: &HostRuntime,
    name: Option<&str>,
    rows: Rows,
    work: &mut T,
) -> Result<(), T::Error>
    requires { T.ready work.old rows.from × (rows.from + rows.count ≤ T.rows_of work.old) }
    ensures { OnOk result (T.ready work.new (rows.from + rows.count) × (T.first work.new ≡ T.first work.old)) }
{
    let done = work_on_rows(rt, name, rows, work);
    if name.is_some() {
        progress_ended(rt, rows.count);
    }
    done
}
