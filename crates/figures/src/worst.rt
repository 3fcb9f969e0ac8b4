// The worst blocks, as keys in an array, the greatest first. Of two keys the greater has the greater error, and at equal errors the
// earlier block.
ghost use Rattle.std.specs.Prelude.{◌≡◌, ◌<◌, ◌≤◌, Some, None};
ghost use Rattle.figures.specs.Worst.{key_of, error_of, entry_number, entry_mode, partition_of, inserted};
ghost use Rattle.figures.specs.Entries.{key_in};

use crate::entry::Entry;
use std::cmp::Reverse;

// The key of a block of mode 1 or 3. It is not 0, which stands for no block.
pub fn key(error: u32, number: u32, mode: u8, partition: u8) -> u64
    requires { number < 16777216 }
    ensures { result ≡ key_of error number mode partition }
{
    let place = u64::from(16777215 - number);
    let bit = u64::from(mode / 2 % 2);
    u64::from(error) * 2147483648 + place * 128 + bit * 64 + u64::from(partition % 64) + 1
}

// The error in a key.
pub fn key_error(key: u64) -> u64
    ensures { result ≡ error_of key }
{
    key.saturating_sub(1) / 2147483648
}

// The block's number in a key.
pub fn key_number(key: u64) -> u64
    ensures { result ≡ entry_number key }
{
    16777215 - key.saturating_sub(1) / 128 % 16777216
}

// The mode in a key.
pub fn key_mode(key: u64) -> u64
    ensures { result ≡ entry_mode key }
{
    1 + 2 * (key.saturating_sub(1) / 64 % 2)
}

// The partition in a key.
pub fn key_partition(key: u64) -> u64
    ensures { result ≡ partition_of key }
{
    key.saturating_sub(1) % 64
}

impl Entry {
    // A block of mode 1 or 3. Of another mode only the bit counts that tells these two apart, and of a partition the six lowest bits.
    pub fn new(error: u32, number: u32, mode: u8, partition: u8) -> Entry
        requires { number < 16777216 }
        ensures { key_in (Some result) ≡ key_of error number mode partition }
    {
        Entry {
            error,
            number: Reverse(number),
            mode: 1 + 2 * (mode / 2 % 2),
            partition: partition % 64,
        }
    }

    // The block with a key: none where it is 0, which stands for no block, or greater than that of any block.
    pub fn of_key(key: u64) -> Option<Entry>
        ensures held { key ≤ 9223372036854775808 → key_in result ≡ key }
        ensures none { 9223372036854775808 < key → result ≡ None }
    {
        if key == 0 {
            return None;
        }
        let error = u32::try_from(key_error(key)).ok()?;
        // cast, as a number is below 2 ^ 24, a mode 1 or 3 and a partition below 64
        Some(Entry {
            error,
            number: Reverse(key_number(key) as u32),
            mode: key_mode(key) as u8,
            partition: key_partition(key) as u8,
        })
    }

    // Its key.
    pub fn key(self) -> u64
        ensures { result ≡ key_in (Some self) }
    {
        key(self.error, self.number.0, self.mode, self.partition)
    }
}

// Puts a key before the first smaller one; the later keys move one place on and the last falls out. Any keys will do, in order or not, so
// none is passed over by a binary search. No place has a branch, which a walk over all of them would pay for.
pub fn insert(keys: &mut [u64], key: u64)
    ensures { keys.new ≡ inserted keys.old key }
{
    let mut carried = key;
    for place in keys.iter_mut() {
        let held = *place;
        *place = held.max(carried);
        carried = held.min(carried);
    }
}
