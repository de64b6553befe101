// A row's numbers: its relation and its cells.
ghost use Rattle.std.specs.Prelude.{◌≡◌};
ghost use Rattle.meaning.specs.Tables.{row_numbers};
ghost use Rattle.pack.specs.Records.{row_of};
ghost use Rattle.pack.specs.Shown.{made};

use crate::put::put_bytes;
use meaning::{MAX_COLUMNS, ROW_WIDTH, UNUSED};
use pack::cursor::Tuple;

// A row's relation, then its cells, the first of them where there are more than a pack's row has; UNUSED past them.
pub fn row_numbers<const MOST: usize>(row: Tuple<'_, MOST>) -> [u16; ROW_WIDTH]
    ensures { result ≡ row_numbers (made row_of row.entry) }
{
    let mut numbers = [UNUSED; ROW_WIDTH];
    numbers[0] = row.number as u16;
    let kept = row.items.len().min(MAX_COLUMNS);
    put_bytes(&row.items[..kept], &mut numbers, 1);
    numbers
}
