// Rows of sums over the same shards, several at once: they share one reading of the shards.
ghost use Rattle.std.specs.Prelude.{◌≡◌, ◌≢◌, ℕ, ◌+◌, ◌*◌, ◌<◌, ◌≤◌, length, slice_index};
ghost use Rattle.gs_gf256.specs.Field.{product};
ghost use Rattle.gs_gf256.specs.Table.{times, table_at};

use gs_gf256::{TABLE_LEN, write_table};

/// The most rows that are made at once.
pub(crate) const MOST_ROWS: usize = 4;

/// How many bytes the tables of a shard have in so many rows.
pub(crate) const GROUP_LEN: usize = 128;

/// How many shards the smaller room for tables is for.
pub(crate) const FEW_SHARDS: usize = 16;

/// Writes the tables of the factors that the first shards have in one row of so many.
pub(crate) fn write_tables(tables: &mut [u8], rows: usize, row: usize, factors: &[u8], count: usize)
    requires row_in { row < rows }
    requires few_rows { rows ≤ MOST_ROWS }
    requires room { count * rows * TABLE_LEN ≤ length tables.old }
    requires factors_size { count ≤ length factors.now }
    ensures written { (i x : ℕ) → i < count → x < 256
        → times tables.new (table_at rows i row) x ≡ product (slice_index factors.now i) x }
    ensures others { (i r x : ℕ) → i < count → r < rows → r ≢ row → x < 256
        → times tables.new (table_at rows i r) x ≡ times tables.old (table_at rows i r) x }
{
    for i in 0..count {
        write_table(tables, (i * rows + row) * TABLE_LEN, factors[i]);
    }
}
