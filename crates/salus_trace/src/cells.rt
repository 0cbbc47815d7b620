use salus_types::NoMemory;
use text_words::put;

// Where each column begins in its row.
pub const PARTY: usize = 7;

pub const HANDED: usize = 16;

pub const SENT: usize = 60;

pub const DISK: usize = 94;

pub const LINES: usize = 128;

/// Writes a cell into the row that begins at `start`: from its column on, or behind a cell that reaches further. An empty one
/// takes no place.
pub fn put_cell(
    table: &mut Vec<u8>,
    start: usize,
    column: usize,
    cell: &[u8],
) -> Result<(), NoMemory> {
    if cell.is_empty() {
        return Ok(());
    }
    let width = table.len().saturating_sub(start);
    if width > 0 && width >= column {
        put(table, b"  ")?;
    }
    'blanks: for _ in width..column {
        put(table, b" ")?;
    }
    put(table, cell)
}
