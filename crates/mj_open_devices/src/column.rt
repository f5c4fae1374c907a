// The column and the row of a device.

ghost use Rattle.std.specs.Prelude.{◌≡◌, ◌+◌, ◌*◌, ◌≤◌, ◌<◌, ◌^◌, length};
ghost use Rattle.std.specs.List.{list_all};
ghost use Rattle.mj_semantics.specs.State.{column_after, row_after};
ghost use Rattle.mj_open_devices.specs.Opened.{is_plain};

/// The highest byte that leads elsewhere than one column to the right: a carriage return. The others are a line feed, 10, and a form feed, 12.
const HIGHEST_MOVING: u8 = 13;

/// Whether all bytes are above those that lead to a line's start or to another row. Then each is one column to the right, and the row stays. A lower byte that
/// leads nowhere, such as a tab, fails this too: then all are counted one by one.
pub(crate) fn are_plain(bytes: &[u8]) -> bool
    ensures { result ≡ list_all is_plain bytes.now }
{
    bytes.iter().all(|b| *b > HIGHEST_MOVING)
}

/// The column after these bytes were written from this one on.
pub(crate) fn column_after(column: u64, bytes: &[u8]) -> u64
    requires { column + length bytes.now < 2 ^ 64 }
    ensures value { result ≡ column_after column bytes.now }
    ensures bound { result ≤ column + length bytes.now }
{
    let mut column = column;
    for &b in bytes {
        column = match b {
            10 | 12 | 13 => 0,
            _ => column + 1,
        };
    }
    column
}

/// The row after these bytes were written from this one on.
pub(crate) fn row_after(row: u64, bytes: &[u8]) -> u64
    requires { row + length bytes.now < 2 ^ 64 }
    ensures value { result ≡ row_after row bytes.now }
    ensures bound { result ≤ row + length bytes.now }
{
    let mut row = row;
    for &b in bytes {
        row = match b {
            10 => row + 1,
            12 => 0,
            _ => row,
        };
    }
    row
}
